//! Laws of the definitions that the contracts cite. Each is a function that does nothing, and its
//! contract is the law.
ghost use Rattle.std.specs.Prelude.{◌≡◌, ◌↔◌, ◌⊎◌, ℕ, ◌<◌, Bool, true, List};
ghost use Rattle.patterns.specs.Least.{Table, least, AreClear, IsLeastHit, IsFirstOfBlock};
ghost use Rattle.patterns.specs.Least.{IsFirstTest};
ghost use Rattle.patterns.specs.Tests.{TestList, IsTestList, HasTests, IsTestRefusal, blocks};
ghost use Rattle.patterns.specs.declared.TestFault.{TestFault};

/// States that no class is hit over no blocks.
pub fn least_of_none()
    ensures { (table : Table) (class : ℕ) → least table 0 class ≡ None }
{}

/// States that the least test over a table is in the least block that is hit. There is none exactly
/// if all blocks are clear.
pub fn least_hit()
    ensures hit { (table : Table) (blocks class t : ℕ)
        → (least table blocks class ≡ Some t) ↔ IsLeastHit table blocks class t }
    ensures clear { (table : Table) (blocks class : ℕ)
        → (least table blocks class ≡ None) ↔ AreClear table blocks class }
{}

/// States when the least test over a table is the first test that passes: if the outcome of each
/// block is the first of its tests that pass.
pub fn least_is_first()
    ensures { (passes : ℕ → Bool) (table : Table) (tests class : ℕ)
        → ((block : ℕ) → block < blocks tests
        → IsFirstOfBlock (λ t. passes t ≡ true) tests block (table class block))
        → IsFirstTest (λ t. passes t ≡ true) tests (least table (blocks tests) class) }
{}

/// States that a test file has either one list of tests or one error.
pub fn one_answer_of_tests()
    ensures some { (text : List ℕ) (width : ℕ)
        → ((t : TestList) × HasTests text width t)
        ⊎ ((fault : TestFault) × IsTestRefusal text width fault) }
    ensures not_both { (text : List ℕ) (width : ℕ) (t : TestList) (fault : TestFault)
        → HasTests text width t → ¬ IsTestRefusal text width fault }
    ensures one_list { (text : List ℕ) (width : ℕ) (s t : TestList)
        → HasTests text width s → HasTests text width t → s ≡ t }
    ensures one_fault { (text : List ℕ) (width : ℕ) (f g : TestFault)
        → IsTestRefusal text width f → IsTestRefusal text width g → f ≡ g }
{}

/// States that the tests of a file have their width and are within the limit.
pub fn accepted_in_range()
    ensures { (text : List ℕ) (width : ℕ) (t : TestList)
        → HasTests text width t → IsTestList t }
{}
