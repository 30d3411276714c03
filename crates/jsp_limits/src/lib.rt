//! The limits of the abstract machine. The crate computes nothing: it is here to state that each
//! legal step keeps them, and to have that proved. So a program that makes the machine's steps
//! needs no clause about limits at each function: whatever stands for the next state is within
//! them.
//!
//! - `at_first`: the state before the first step is within its limits.
//! - `each_step`: from a state within its limits each legal step leads to such a state.
//! - `each_answer`: what is said in such a step keeps the limits of answers.
//! - `each_sum`: the sums that the program makes in such a state fit 64 bits.
//!
//! They speak of any state within its limits, also one that no run reaches. The limits stand in
//! `specs/Limits.antt` of jsp_model.
#![tactic(auto)]

ghost use Rattle.std.specs.Prelude.{List, ℕ, IsTrue};
ghost use Rattle.std.specs.List.{list_all};
ghost use Rattle.jsp_reply.specs.Limits.{is_within_limits};
ghost use Rattle.jsp_model.specs.declared.state.State.{State};
ghost use Rattle.jsp_model.specs.declared.step.Step.{Step};
ghost use Rattle.jsp_model.specs.Config.{are_space_names};
ghost use Rattle.jsp_model.specs.Lookup.{empty};
ghost use Rattle.jsp_model.specs.Steps.{is_legal, next};
ghost use Rattle.jsp_model.specs.Answers.{Saying, said};
ghost use Rattle.jsp_limits.specs.Sums.{SumsFit};
ghost use Rattle.jsp_model.specs.Limits.{has_fitting_request, IsWithinLimits};

/// The laws of the limits.
pub fn limits_hold()
    ensures at_first { (names : List (List ℕ)) → IsTrue (are_space_names names) → IsWithinLimits (empty names) }
    ensures each_step { (st : State) (step : Step) → IsWithinLimits st → IsTrue (is_legal st step) → IsTrue (has_fitting_request step) → IsWithinLimits (next st step) }
    ensures each_answer { (st : State) (step : Step) → IsWithinLimits st → IsTrue (is_legal st step) → IsTrue (has_fitting_request step) → IsTrue (list_all (λ (a : Saying). is_within_limits a.1) (said st step)) }
    ensures each_sum { (st : State) → IsWithinLimits st → SumsFit st }
{}
