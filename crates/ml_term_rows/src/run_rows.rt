//! Runs of steps at other types than those of unification.
use ml_term::unification_laws::runs_go_by_turns;

#[test]
fn runs_of_any_types_go_by_turns() {
    runs_go_by_turns::<u64, bool>();
}
