//! How large a problem is whose search comes to the limit.

ghost use Rattle.std.specs.Prelude.{◌<◌, List, length};
ghost use Rattle.choice_core.specs.declared.sharings.Choice.{Choice};
ghost use Rattle.choice_search.specs.Answers.{HasManyOpen};

use choice_core::{Choice, Problem};

/// A problem with more open prefixes than the limit for some list has more than nine modules: nine modules have at most
/// 87381 prefixes that aren't complete.
pub fn many_open_means_many_modules(problem: &Problem, choices: &[Choice])
    requires { HasManyOpen problem.now choices.now }
    ensures { 9 < length problem.now.own }
{}
