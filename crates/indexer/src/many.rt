// The answers to queries, one after the other, by an index that is the reading's.
ghost use Rattle.std.specs.Prelude.{◌≡◌, ◌/◌, length};
ghost use Rattle.std.proofs.lemmas.List.Edits.{sets};
ghost use Rattle.grammar.specs.Reading.{reading};
ghost use Rattle.index.specs.Answers.{sought};
ghost use Rattle.index.specs.Queries.{decoded, name_in, encoded_all};
ghost use Rattle.indexer.specs.Inner.{Indexed, sought_each};

use crate::search::Front;
use entry::Entry;
use index::Query;

// What stands for no `at`.
const NOWHERE: usize = 4294967295;

// The query whose 12 bytes these are.
#[tactic(auto, unfolding(index::specs::Queries::decoded))]
fn query_of(row: &[u8]) -> Query
    ensures { result ≡ decoded row.now }
{
    Query {
        owner: little::word32(row, Query::OWNER),
        start: little::word32(row, Query::START),
        len: little::word32(row, Query::LEN),
    }
}

// Where the first thing of the query's owner and name is, or that it is nowhere.
fn answer(front: &Front, names: &[u8], q: Query) -> usize
    requires { Indexed front.now.text.now front.now.index.now × (front.now.n ≡ length front.now.index.now / 16) }
    ensures { result ≡ sought front.now.text.now q.owner (name_in names.now q) (reading front.now.text.now) }
{
    front
        .seek(q.owner, lookup::part(names, q.start, q.len))
        .unwrap_or(NOWHERE)
}

// Lays the answers to all queries from the front of the buffer on; what would stand past its end is left out.
pub(crate) fn answer_each(
    text: &[u8],
    index: &[u8],
    names: &[u8],
    queries: &[u8],
    answers: &mut [u8],
)
    requires { Indexed text.now index.now }
    ensures { answers.new ≡ sets answers.old 0 (encoded_all (sought_each text.now names.now queries.now (length queries.now / 12))) }
{
    let front = Front {
        text,
        index,
        n: index.len() / Entry::SIZE,
    };
    for (i, row) in queries.chunks_exact(Query::SIZE).enumerate() {
        let at = answer(&front, names, query_of(row));
        little::lay(answers, Query::ANSWER * i, Query::ANSWER, at as u64);
    }
}
