// A range of addresses as C's size_t has it, for entries that take sixteen bits. No number is cut: a range that ends past 65,535
// goes on as another one that does, and is refused with 12 like it.
ghost use Rattle.std.specs.Prelude.{◌≡◌, ◌+◌, ltb};
ghost use Rattle.base.specs.Choice.{cond};

// The first address and how many there are, or 65,535 for both.
pub fn narrow(start: usize, len: usize) -> (u16, u16)
    ensures start_value { result.0 ≡ cond (ltb 65535 (start + len)) 65535 start }
    ensures len_value { result.1 ≡ cond (ltb 65535 (start + len)) 65535 len }
{
    match start.checked_add(len) {
        Some(end) if end <= 65535 => (start as u16, len as u16),
        _ => (65535, 65535),
    }
}
