// Files of rows of one width, one after the other: reading a row at its index and storing one there, and exchanging two rows.
#![tactic(auto)]

ghost use Rattle.std.specs.Prelude.{◌≡◌, ◌+◌, ◌/◌, ◌≤◌, ◌<◌, length};
ghost use Rattle.rowfile.specs.Rows.{row_at, has_room, stored, swapped};

// The row at the index of a file whose rows are so wide.
pub fn row(file: &[u8], width: usize, index: usize) -> &[u8]
    requires { index < length file.now / width }
    ensures { result.now ≡ row_at width file.now index }
{
    let place = width * index;
    &file[place..place + width]
}

// Writes the row at the index, and says whether the file had room there. Rows are as wide as this one; of no bytes there is none.
pub fn put(row: &[u8], file: &mut [u8], index: usize) -> bool
    ensures value { result ≡ has_room (length row.now) file.old index }
    ensures file_after { file.new ≡ stored (length row.now) row.now index file.old }
{
    if row.len() == 0 {
        return false;
    }
    if file.len() / row.len() <= index {
        return false;
    }
    let place = row.len() * index;
    file[place..place + row.len()].copy_from_slice(row);
    true
}

// Exchanges two rows of a file whose rows are so wide.
pub fn swap(file: &mut [u8], width: usize, i: usize, j: usize)
    requires { (i < j) × (j < length file.old / width) }
    ensures { file.new ≡ swapped width i j file.old }
{
    let a = width * i;
    let b = width * j;
    for k in 0..width {
        let kept = file[a + k];
        file[a + k] = file[b + k];
        file[b + k] = kept;
    }
}
