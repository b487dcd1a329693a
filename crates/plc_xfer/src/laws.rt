// The laws for which the rules are made as they are: inference needs that a larger environment never
// does better than a smaller one. And the law by which whoever judges conditions needs no row for each primitive.
ghost use Rattle.plc_xfer.specs.Laws.{ConditionsGoByFacts, RulesKeepOrder};

/// The rules and interference keep the order of environments and the facts on them, and a condition
/// that holds in an environment holds in each one below it.
pub fn rules_keep_order()
    ensures { RulesKeepOrder }
{}

/// What a condition asks goes by the facts of the primitive: through which pointer it goes, which two it compares, and
/// what it calls.
pub fn conditions_go_by_facts()
    ensures { ConditionsGoByFacts }
{}
