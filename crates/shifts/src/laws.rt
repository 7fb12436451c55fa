// What Ticket 13 demands of `shift_table` by itself. No public call: each function is here for what its contract says.
ghost use Rattle.std.specs.Prelude.{◌≡◌};

// By zero is the same table.
fn by_zero(table: &mut [u8], count: usize)
    ensures { table.new ≡ table.old }
{
    let _ = crate::shift_table(table, count, 0);
}

// By an amount and then by its opposite is the same table.
fn and_back(table: &mut [u8], count: usize, by: u64)
    ensures { table.new ≡ table.old }
{
    let _ = crate::shift_table(table, count, by);
    let _ = crate::shift_table(table, count, by.wrapping_neg());
}
