// The functions over the lent slice.
ghost use Rattle.std.specs.Prelude.{◌≡◌, length, position, set, take};
ghost use Rattle.labels.specs.Labels.{is_named, find};
ghost use Rattle.table.specs.Table.{filled};

use labels::{Found, Label, names};

// Where the first of the first `count` entries stands that has the name.
fn place(text: &[u8], table: &[Label], count: usize, name: &[u8]) -> Option<usize>
    ensures { result ≡ position (is_named text.now name.now) (take count table.now) }
{
    table
        .iter()
        .take(count)
        .position(|l| names(text, l.place, l.length, name))
}

// The first of the first `count` entries that has the name.
pub fn find(text: &[u8], table: &[Label], count: usize, name: &[u8]) -> Option<Found>
    ensures { result ≡ find text.now name.now (take count table.now) }
{
    let index = place(text, table, count, name)?;
    Some(Found {
        index,
        address: table[index].address,
    })
}

// Stores entry i; past the end nothing. By an index, since `get_mut` says nothing of what the slice ends as.
pub fn define(table: &mut [Label], i: usize, l: Label)
    ensures { table.new ≡ set table.old i l }
{
    if i < table.len() {
        table[i] = l;
    }
}

// Zeros from an entry on.
pub fn clear(table: &mut [Label], from: usize)
    ensures { table.new ≡ filled (length table.old) (take from table.old) }
{
    if from < table.len() {
        table[from..].fill(Label {
            place: 0,
            length: 0,
            address: 0,
        });
    }
}
