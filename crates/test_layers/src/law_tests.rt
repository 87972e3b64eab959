//! Laws that no code calls. A law holds by its contract; its call shows that it can be used.

/// Words and operators, formulas, and turns.
#[test]
fn laws_can_be_called() {
    word_ops::laws();
    word_ops::order_laws();
    word_ops::operator_laws();
    formula_tree::laws();
    alpha_turns::laws();
}
