ghost use Rattle.std.specs.Prelude.{◌≡◌, ◌++◌, OnOk, string_bytes};
ghost use Rattle.qk_top.specs.Decimals.{count_text, number_text};

use std::alloc::AllocError;

/// Appends a count in digits.
pub(crate) fn push_count(count: u64, block: &mut String) -> Result<(), AllocError>
    ensures { OnOk result (string_bytes block.new ≡ string_bytes block.old ++ count_text count) }
{
    write!(block, "{count}")
}

/// Appends an integer in digits, with its sign.
pub(crate) fn push_number(number: i64, block: &mut String) -> Result<(), AllocError>
    ensures { OnOk result (string_bytes block.new ≡ string_bytes block.old ++ number_text number) }
{
    write!(block, "{number}")
}
