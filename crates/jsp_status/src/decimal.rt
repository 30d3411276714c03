//! Numbers as text.
ghost use Rattle.std.specs.Prelude.{◌≡◌, ◌++◌, OnOk, decimal};
ghost use Rattle.jsp_status.specs.Decimal.{tenths};

use std::alloc::{AllocError, Global};

/// Appends a number.
pub(crate) fn push_decimal(alloc: Global, text: &mut Vec<u8>, number: u64) -> Result<(), AllocError>
    ensures { OnOk result (text.new.items ≡ text.old.items ++ decimal number) }
{
    let digits = number.to_string(alloc)?;
    text.extend_from_slice(digits.as_bytes())
}

/// Appends a number of tenths.
pub(crate) fn push_tenths(alloc: Global, text: &mut Vec<u8>, number: u64) -> Result<(), AllocError>
    ensures { OnOk result (text.new.items ≡ text.old.items ++ tenths number) }
{
    push_decimal(alloc, text, number / 10)?;
    text.extend_from_slice(b".")?;
    push_decimal(alloc, text, number % 10)
}
