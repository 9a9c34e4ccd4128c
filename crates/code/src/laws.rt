// The theorems that the codes rest on. Each function computes nothing: its contract is the theorem.
ghost use Rattle.code.specs.Equations.{OneSolution};
ghost use Rattle.code.specs.Acceptance.{CodewordsAreApart, AcceptanceIsOne, AcceptanceHasOneAnswer, AcceptedIsSent};

use field::NumberSystem;

/// Different locators and any wanted sums have exactly one solution (a Vandermonde system).
pub fn equations_have_one_solution<F: NumberSystem>()
    ensures { OneSolution F.NumberSystem.system.on }
{}

/// Two codewords of c checks that differ in at most c symbols are equal: the minimum distance is above c.
pub fn codewords_are_apart<F: NumberSystem>()
    ensures { CodewordsAreApart F.NumberSystem.system }
{}

/// At most one codeword of c checks is within reach t of any list, if 2t is at most c: decoding is unique.
pub fn acceptance_is_one<F: NumberSystem>()
    ensures { AcceptanceIsOne F.NumberSystem.system }
{}

/// Of every list exactly one answer is accepted within reach t, if 2t is at most c: a codeword, or that there is none.
pub fn acceptance_has_one_answer<F: NumberSystem>()
    ensures { AcceptanceHasOneAnswer F.NumberSystem.system }
{}

/// Where a list differs from a codeword in at most c - t symbols, any codeword within reach t of the list is that one.
pub fn accepted_is_sent<F: NumberSystem>()
    ensures { AcceptedIsSent F.NumberSystem.system }
{}
