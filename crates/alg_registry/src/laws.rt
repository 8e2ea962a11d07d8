//! What holds of every history that a registry can have, and what such histories are.

ghost use Rattle.alg_registry.specs.Legal.{LegalReg};
ghost use Rattle.alg_registry.specs.Lifetimes.{NeverHandedOutAgain, HeldWhileReferenced, HeldByCaller, HeldFromGetToPut, ListedIs, ReferencesAre, BestAnswers, BestIsGreatest};
ghost use Rattle.alg_registry.specs.Made.{Made};
ghost use Rattle.alg_registry.specs.NamedAnswers.{LooksName, EndsName};
ghost use Rattle.alg_registry.specs.OwnCalls.{AllStays, BuildingIsOwn, OpenIsClaimed, LooksAreOwn, ReferencesAreOwn, AllHaveEnded, AllHaveEndedFor};
ghost use Rattle.alg_registry.specs.Trial.{run, after_unlist, asked_by_worker, claimed_early, began_again, claimed_twice, found_another, ended_by_another, built_again, refused_reference, found_after_unlist, two_templates, wrong_child, too_early};

/// How long an entry is found and held, over every history that a registry can have.
pub fn lifetimes()
    ensures never_handed_out { NeverHandedOutAgain }
    ensures listed { ListedIs }
    ensures references { ReferencesAre }
    ensures held { HeldWhileReferenced }
    ensures held_by_caller { HeldByCaller }
    ensures held_to_put { HeldFromGetToPut }
    ensures best_answers { BestAnswers }
    ensures best { BestIsGreatest }
{}

/// What stays as a history goes on, and what one caller knows by its own calls, whatever others add between them.
pub fn own_calls()
    ensures stays { AllStays }
    ensures building { BuildingIsOwn }
    ensures claimed { OpenIsClaimed }
    ensures looks { LooksAreOwn }
    ensures references { ReferencesAreOwn }
{}

/// Whatever the answer of a look or the end of a larval names is there: an entry with that id, a larval with the look's
/// text.
pub fn names_exist()
    ensures looks { LooksName }
    ensures ends { EndsName }
{}

/// Where each look that was asked for has come to something, nothing is left to build.
pub fn all_ended()
    ensures all { AllHaveEnded }
    ensures one { AllHaveEndedFor }
{}

/// The building of an instance under cryptd is a legal history, and with another entry in any place it isn't.
pub fn legal_histories()
    ensures run { LegalReg run }
    ensures after_unlist { LegalReg after_unlist }
    ensures asked_by_worker { ¬ LegalReg asked_by_worker }
    ensures claimed_early { ¬ LegalReg claimed_early }
    ensures began_again { ¬ LegalReg began_again }
    ensures claimed_twice { ¬ LegalReg claimed_twice }
    ensures found_another { ¬ LegalReg found_another }
    ensures ended_by_another { ¬ LegalReg ended_by_another }
    ensures built_again { ¬ LegalReg built_again }
    ensures refused_reference { ¬ LegalReg refused_reference }
    ensures found_after_unlist { ¬ LegalReg found_after_unlist }

    // By a table of two templates the run is faithful, and neither an instance over another entry nor an end before
    // the child was looked for is.
    ensures made { Made two_templates run }
    ensures wrong_child { ¬ Made two_templates wrong_child }
    ensures too_early { ¬ Made two_templates too_early }
{}
