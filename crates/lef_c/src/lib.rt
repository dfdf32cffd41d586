// The archive that C links: each call of the border, under its name in include/lef.h, with the clauses of the crate `lef`.
#![tactic(auto)]

ghost use Rattle.std.specs.Prelude.{◌≡◌};
ghost use Rattle.lef.specs.Border.{read_numbers, read_buffer, check_numbers, write_numbers, write_buffer, token_numbers, force_numbers, owners_numbers, name_span, index_numbers, index_buffer, index_check_numbers, find_numbers, find_many_numbers, find_many_buffer};

// The records of a text, into the buffer.
#[unsafe(no_mangle)]
pub extern "C" fn lef_read(text: &[u8], records: &mut [u8], place: &mut u64, line: &mut u64) -> u64
    ensures value { result ≡ (read_numbers text.now records.old).number }
    ensures place_after { place.new ≡ (read_numbers text.now records.old).place }
    ensures line_after { line.new ≡ (read_numbers text.now records.old).line }
    ensures records_after { records.new ≡ read_buffer text.now records.old }
{
    lef::lef_read(text, records, place, line)
}

// Whether a record file has the records of a text, each once, in any order.
#[unsafe(no_mangle)]
pub extern "C" fn lef_check(text: &[u8], records: &[u8], place: &mut u64, line: &mut u64) -> u64
    ensures value { result ≡ (check_numbers text.now records.now).number }
    ensures place_after { place.new ≡ (check_numbers text.now records.now).place }
    ensures line_after { line.new ≡ (check_numbers text.now records.now).line }
{
    lef::lef_check(text, records, place, line)
}

// The records of a file that is accepted, as canonical text, into the buffer.
#[unsafe(no_mangle)]
pub extern "C" fn lef_write(
    text: &[u8],
    records: &[u8],
    out: &mut [u8],
    place: &mut u64,
    line: &mut u64,
) -> u64
    ensures value { result ≡ (write_numbers text.now records.now out.old).number }
    ensures place_after { place.new ≡ (write_numbers text.now records.now out.old).place }
    ensures line_after { line.new ≡ (write_numbers text.now records.now out.old).line }
    ensures out_after { out.new ≡ write_buffer text.now records.now out.old }
{
    lef::lef_write(text, records, out, place, line)
}

// The first token of a text from a place on.
#[unsafe(no_mangle)]
pub extern "C" fn lef_token(
    text: &[u8],
    from: u64,
    kind: &mut u64,
    start: &mut u64,
    stop: &mut u64,
    place: &mut u64,
    line: &mut u64,
) -> u64
    ensures value { result ≡ (token_numbers text.now from).refusal }
    ensures kind_after { kind.new ≡ (token_numbers text.now from).kind }
    ensures start_after { start.new ≡ (token_numbers text.now from).start }
    ensures stop_after { stop.new ≡ (token_numbers text.now from).stop }
    ensures place_after { place.new ≡ (token_numbers text.now from).place }
    ensures line_after { line.new ≡ (token_numbers text.now from).line }
{
    lef::lef_token(text, from, kind, start, stop, place, line)
}

// The index of the record in force for an owner and a kind, and for an option of a LAYER a code. A kind that is no byte is held by no
// record, and is asked for as one that has none in force; such a code as one that is of no option.
#[unsafe(no_mangle)]
pub extern "C" fn lef_in_force(
    records: &[u8],
    owner: u64,
    kind: u64,
    code: u64,
    index: &mut u64,
    place: &mut u64,
    line: &mut u64,
) -> u64
    ensures value { result ≡ (force_numbers records.now owner kind code).refusal }
    ensures index_after { index.new ≡ (force_numbers records.now owner kind code).index }
    ensures place_after { place.new ≡ (force_numbers records.now owner kind code).place }
    ensures line_after { line.new ≡ (force_numbers records.now owner kind code).line }
{
    lef::lef_in_force(records, owner, kind, code, index, place, line)
}

// How many owners the record at the index has.
#[unsafe(no_mangle)]
pub extern "C" fn lef_owners(
    records: &[u8],
    index: u64,
    count: &mut u64,
    place: &mut u64,
    line: &mut u64,
) -> u64
    ensures value { result ≡ (owners_numbers records.now index).refusal }
    ensures count_after { count.new ≡ (owners_numbers records.now index).count }
    ensures place_after { place.new ≡ (owners_numbers records.now index).place }
    ensures line_after { line.new ≡ (owners_numbers records.now index).line }
{
    lef::lef_owners(records, index, count, place, line)
}

// The name of the record at the index, as a span of the text.
#[unsafe(no_mangle)]
pub extern "C" fn lef_name(
    text: &[u8],
    records: &[u8],
    index: u64,
    start: &mut u64,
    len: &mut u64,
) -> u64
    ensures value { result ≡ 0 }
    ensures start_after { start.new ≡ (name_span text.now records.now index).start }
    ensures len_after { len.new ≡ (name_span text.now records.now index).len }
{
    lef::lef_name(text, records, index, start, len)
}

// The index of a text's SITE blocks, MACROs and PINs, into the buffer.
#[unsafe(no_mangle)]
pub extern "C" fn lef_index(
    text: &[u8],
    records: &[u8],
    index: &mut [u8],
    place: &mut u64,
    line: &mut u64,
) -> u64
    ensures value { result ≡ (index_numbers text.now records.now index.old).number }
    ensures place_after { place.new ≡ (index_numbers text.now records.now index.old).place }
    ensures line_after { line.new ≡ (index_numbers text.now records.now index.old).line }
    ensures index_after { index.new ≡ index_buffer text.now records.now index.old }
{
    lef::lef_index(text, records, index, place, line)
}

// Whether an index is the one that would be built.
#[unsafe(no_mangle)]
pub extern "C" fn lef_index_check(
    text: &[u8],
    records: &[u8],
    index: &[u8],
    place: &mut u64,
    line: &mut u64,
) -> u64
    ensures value { result ≡ (index_check_numbers text.now records.now index.now).number }
    ensures place_after { place.new ≡ (index_check_numbers text.now records.now index.now).place }
    ensures line_after { line.new ≡ (index_check_numbers text.now records.now index.now).line }
{
    lef::lef_index_check(text, records, index, place, line)
}

// The `at` of the first SITE block, MACRO or PIN of an owner and a name.
#[unsafe(no_mangle)]
pub extern "C" fn lef_find(
    text: &[u8],
    records: &[u8],
    index: &[u8],
    owner: u64,
    name: &[u8],
    at: &mut u64,
    place: &mut u64,
    line: &mut u64,
) -> u64
    ensures value { result ≡ (find_numbers text.now records.now index.now owner name.now).refusal }
    ensures at_after { at.new ≡ (find_numbers text.now records.now index.now owner name.now).at }
    ensures place_after { place.new ≡ (find_numbers text.now records.now index.now owner name.now).place }
    ensures line_after { line.new ≡ (find_numbers text.now records.now index.now owner name.now).line }
{
    lef::lef_find(text, records, index, owner, name, at, place, line)
}

// The `at` of the first SITE block, MACRO or PIN of the owner and the name of each query in turn, into the buffer.
#[unsafe(no_mangle)]
pub extern "C" fn lef_find_many(
    text: &[u8],
    records: &[u8],
    index: &[u8],
    names: &[u8],
    queries: &[u8],
    answers: &mut [u8],
    place: &mut u64,
    line: &mut u64,
) -> u64
    ensures value { result ≡ (find_many_numbers text.now records.now index.now queries.now answers.old).number }
    ensures place_after { place.new ≡ (find_many_numbers text.now records.now index.now queries.now answers.old).place }
    ensures line_after { line.new ≡ (find_many_numbers text.now records.now index.now queries.now answers.old).line }
    ensures answers_after { answers.new ≡ find_many_buffer text.now records.now index.now names.now queries.now answers.old }
{
    lef::lef_find_many(text, records, index, names, queries, answers, place, line)
}
