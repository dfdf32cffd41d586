// Many look-ups in one call, and each of them by a call of its own.
use crate::{Held, INDEX};
use index::Query;
use std::io;
use vectors::say::Answer;
use vectors::{hex, plain, say};

// The `at` of what is not found.
const NOWHERE: usize = 4294967295;

impl Held<'_> {
    // At most 170 queries, and names of 1,024 bytes.
    #[inline(never)]
    pub(crate) fn find_many(self, rt: &impl Print, field: &[u8]) -> io::Result<()> {
        let Some((room, field)) = field.split_first_chunk::<4>() else {
            return Ok(());
        };
        let Some((queries, names)) = vectors::cut(b':', field) else {
            return Ok(());
        };
        let mut query_room = [0; 2048];
        let mut name_room = [0; 1024];
        let mut out_room = [b'~'; INDEX];
        let Some(out) = out_room.get_mut(..hex::size(room)) else {
            return Ok(());
        };
        let queries = hex::decoded(queries, &mut query_room);
        let names = plain::decoded(names, &mut name_room);
        let found = indexer::find_many(self.text, self.file, self.index, names, queries, out);
        print!(rt; "{} ", Answer(found))?;
        say::hex(rt, out)?;
        print!(rt; " ")?;
        self.find_each(rt, queries, names)
    }

    // The same look-ups, one after the other.
    fn find_each(self, rt: &impl Print, queries: &[u8], names: &[u8]) -> io::Result<()> {
        for query in queries.chunks_exact(Query::SIZE) {
            let owner = little::word32(query, Query::OWNER);
            let name = name_of(query, names);
            let found = indexer::find(self.text, self.file, self.index, owner, name);
            print!(rt; "{} ", found.unwrap_or(None).unwrap_or(NOWHERE))?;
        }
        Ok(())
    }
}

// The bytes of the name that a query asks for, or none where they are not all there.
fn name_of<'a>(query: &[u8], names: &'a [u8]) -> &'a [u8] {
    let start = little::word32(query, Query::START);
    let stop = start + little::word32(query, Query::LEN);
    names.get(start..stop).unwrap_or(&[])
}
