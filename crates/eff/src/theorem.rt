//! What is proved of core Eff: each function's contract is a theorem.
ghost use Rattle.eff.specs.Tabled.{TermsFollowTheTable, PartsAreOfOneTerm};
ghost use Rattle.eff.specs.CallSets.{CallSetsAreDirts};
ghost use Rattle.eff.specs.Subtyping.{SubtypingIsAnOrder};
ghost use Rattle.eff.specs.Outcome.{StepsAgree};
ghost use Rattle.eff.specs.Handling.{HandlingIsLeaving};
ghost use Rattle.eff.specs.Claims.{ClaimsAreDerivations};
ghost use Rattle.eff.specs.Safety.{DerivationsAreSafe, ClaimsAreSafe};
ghost use Rattle.eff.specs.KindNumbers.{Numbers};
ghost use Rattle.eff.specs.Cases.{Worked};
ghost use Rattle.eff.specs.TypeNumbers.{TypesGoByNumber};
ghost use Rattle.eff.specs.Numerals.{Numerals};
ghost use Rattle.eff.specs.Standing.{ClaimsFollowByPart};
ghost use Rattle.eff.specs.Runs.{RunsAreDetermined};
ghost use Rattle.eff.specs.Scope.{DerivedTermsAreScoped, ScopedTermsStay};
ghost use Rattle.eff.specs.Questions.{Worth};
ghost use Rattle.eff.specs.Steps.{MovesKeepSize};
ghost use Rattle.eff.specs.Spelling.{Spelled};

/// The parts of every term are as the table of kinds says.
pub fn terms_follow_the_table()
    ensures { TermsFollowTheTable }
{}

/// Call sets are a kind of dirt, with a call's weight and inclusion by members.
pub fn call_sets_are_dirts()
    ensures { CallSetsAreDirts }
{}

/// Subtyping is reflexive and transitive.
pub fn subtyping_is_an_order()
    ensures { SubtypingIsAnOrder }
{}

/// The step function follows the step rules, which leave at most one next computation.
pub fn steps_agree()
    ensures { StepsAgree }
{}

/// For call sets, the calls that no case handles are within a dirt just where what the cases leave is.
pub fn handling_is_leaving()
    ensures { HandlingIsLeaving }
{}

/// For call sets, claims that follow are derivations by the rules, and every derivation can be claimed.
pub fn claims_are_derivations()
    ensures { ClaimsAreDerivations }
{}

/// Over any kind of dirt, a derived computation is a value of its type, steps, or asks within its dirt, and so do all that it reaches.
pub fn derivations_are_safe()
    ensures { DerivationsAreSafe }
{}

/// The same for a computation whose claims follow.
pub fn claims_are_safe()
    ensures { ClaimsAreSafe }
{}

/// Kinds and ground types go by number one for one.
pub fn numbers_stand()
    ensures { Numbers }
{}

/// The worked cases come out as stated.
pub fn cases_work()
    ensures { Worked }
{}

/// A numeral n means n successors on zero.
pub fn numerals_are_successors()
    ensures { Numerals }
{}

/// Claims follow just where the rule of every part holds in its context.
pub fn claims_follow_by_part()
    ensures { ClaimsFollowByPart }
{}

/// What a run reaches, and the questions it puts, come from the computation, the meaning and the number of steps alone.
pub fn runs_are_determined()
    ensures { RunsAreDetermined }
{}

/// A derived term stands under the names of its context.
pub fn derived_terms_are_scoped()
    ensures { DerivedTermsAreScoped }
{}

/// A term that stands under n names has none of place n.
pub fn scoped_terms_stay()
    ensures { ScopedTermsStay }
{}

/// The term that an answer stands for is worth the answer.
pub fn answers_are_worth()
    ensures { Worth }
{}

/// A call that passes out of a let or a with leaves the number of parts as it was.
pub fn moves_keep_size()
    ensures { MovesKeepSize }
{}

/// Types go by number: a listed type is what its row says of the types of smaller numbers.
pub fn types_go_by_number()
    ensures { TypesGoByNumber }
{}

/// Parts are of one term at most.
pub fn parts_are_of_one_term()
    ensures { PartsAreOfOneTerm }
{}

/// A term is had again from its parts, and a labelled one from its term and its claims.
pub fn parts_spell_terms()
    ensures { Spelled }
{}
