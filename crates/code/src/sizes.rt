// The sizes that a code can have.
ghost use Rattle.std.specs.Prelude.{◌≤◌, OnOk};
ghost use Rattle.code.specs.Sizes.{Sized};

use super::LONGEST;
use super::error::CodeError;
use field::NumberSystem;

// Refuses more symbols than there are locators, fewer checks than `least`, and more checks than symbols, in this order.
pub(crate) fn test_sizes<F: NumberSystem>(
    symbols: usize,
    least: usize,
    checks: usize,
) -> Result<(), CodeError>
    ensures sizes { Sized F.NumberSystem.system symbols least checks result }
    ensures room { OnOk result (symbols ≤ LONGEST) }
{
    if symbols >= usize::from(F::Q) {
        return Err(CodeError::TooLong);
    }
    if checks < least {
        return Err(CodeError::TooFewChecks);
    }
    if checks > symbols {
        return Err(CodeError::TooManyChecks);
    }
    Ok(())
}
