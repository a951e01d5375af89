//! A law of what becomes of programs. Its function does nothing: the contract is
//! the law.
ghost use Rattle.cu_front_laws.specs.Refusals.{ProgramsAgree, RefusalsAgree, RefusalsExclude};

use cu_deftree::lowering_is_a_function;
use cu_types::{answers_exclude, faults_agree, interfaces_agree};

/// What becomes of a program is one thing. A program that can't be run has one
/// refusal: that of one stage, for one function of it. A program that can be run
/// has none, and one interface and one flat program.
pub fn refusals_exclude()
    ensures refusals { RefusalsAgree }
    ensures runs { RefusalsExclude }
    ensures programs { ProgramsAgree }
{
    interfaces_agree();
    answers_exclude();
    faults_agree();
    lowering_is_a_function();
}
