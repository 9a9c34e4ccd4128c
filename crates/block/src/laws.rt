// The theorems about identifications and conditions. Each function computes nothing: its contract is the theorem.
ghost use Rattle.block.specs.Conditions.{ConditionsSay};
ghost use Rattle.block.specs.Identification.{WrittenIsRight};

use field::NumberSystem;

/// An identification as it is written is right, whatever body follows it.
pub fn written_identification_is_right()
    ensures { WrittenIsRight }
{}

/// The condition of a body is the only one whose meaning, in words of codewords alone, holds of its symbols.
pub fn conditions_mean_what_they_say<F: NumberSystem>()
    ensures { ConditionsSay F.NumberSystem.system }
{}
