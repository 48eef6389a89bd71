//! Statements.

use hp_query::Aggregate;
use hp_value::{ClassNo, Expr, RuleNo, RuleOperation};

/// A field and the expression that it is set to.
#[derive(Debug, PartialEq, Eq, Drop)]
pub struct Assignment {
    /// The field's name.
    pub field: String,
    /// The expression whose value the field gets.
    pub value: Expr,
}

/// A statement of a script's transaction or of a rule's action.
#[derive(Debug, Drop)]
pub enum Stmt {
    /// Creates an object, and signals it.
    Create {
        /// The object's class.
        class: ClassNo,
        /// The expression whose value is the object's key.
        key: Box<Expr>,
        /// The value of each field of the class.
        pairs: Vec<Assignment>,
    },
    /// Sets some fields of an object, and signals it, even if no value changes.
    Update {
        /// The object's class.
        class: ClassNo,
        /// The expression whose value is the object's key.
        key: Box<Expr>,
        /// The fields that are set; the others keep their values.
        pairs: Vec<Assignment>,
    },
    /// Deletes an object, and signals it.
    Delete {
        /// The object's class.
        class: ClassNo,
        /// The expression whose value is the object's key.
        key: Box<Expr>,
    },
    /// Gives a signal.
    Signal {
        /// The signal's name.
        name: String,
        /// The expressions whose values are the signal's arguments, in order.
        arguments: Vec<Expr>,
    },
    /// Emits the value of an expression, if all transactions around the statement commit.
    Emit(Box<Expr>),
    /// Runs one of two bodies.
    If {
        /// The expression whose boolean decides.
        condition: Box<Expr>,
        /// The statements that run if it is true.
        then_body: Vec<Stmt>,
        /// The statements that run if it is false.
        else_body: Vec<Stmt>,
    },
    /// Runs a body for each row of a query's answer, in ascending key order. The whole answer is found before the first
    /// run.
    Each {
        /// The name of the row in the predicate and in the body.
        variable: String,
        /// The class whose objects are tested.
        class: ClassNo,
        /// The test of each row.
        predicate: Box<Expr>,
        /// The statements that run for each row.
        body: Vec<Stmt>,
    },
    /// Runs a body for each row of the kept answer of a query of the rule. The query's name means that row in the body.
    For {
        /// The query's name.
        query: String,
        /// The statements that run for each row.
        body: Vec<Stmt>,
    },
    /// Runs a body with a name for the current row of an object.
    With {
        /// The name of the row in the body.
        variable: String,
        /// The object's class.
        class: ClassNo,
        /// The expression whose value is the object's key.
        key: Box<Expr>,
        /// The statements that run.
        body: Vec<Stmt>,
    },
    /// Runs a body as a subtransaction, and another body if it aborts. In Moss's model an abort undoes the
    /// subtransaction alone.
    Sub {
        /// The subtransaction's statements.
        body: Vec<Stmt>,
        /// The statements that run in the parent if the subtransaction aborts.
        otherwise: Vec<Stmt>,
    },
    /// Runs a body with a name for a value, which is found first.
    Let {
        /// The name of the value in the body.
        name: String,
        /// What computes the value. It must have one: the least and the greatest of no row have none.
        aggregate: Aggregate,
        /// The statements that run.
        body: Vec<Stmt>,
    },
    /// Aborts the innermost transaction around it.
    Abort,
    /// Aborts the action and the transaction that triggered its rule, with the value of an expression as its reason, if
    /// there is one. It is allowed in actions only.
    Veto(Option<Box<Expr>>),
    /// Installs, enables, disables or removes a rule. It signals no event.
    OnRule {
        /// The operation.
        operation: RuleOperation,
        /// The rule.
        rule: RuleNo,
    },
    /// Fires a rule without an occurrence of its event.
    Fire(RuleNo),
}

impl PartialEq for Stmt {
    ghost use Rattle.std.specs.Ordering.{on};
    ghost use Rattle.std.specs.Cmp.{on_equiv, partial_equiv_from_equiv};
    ghost use Rattle.hp_rule.specs.SameStatements.{statement_same, statement_equiv};
    ghost use Rattle.hp_rule.specs.Statements.{statement};

    ghost eq = { on statement statement_same };

    ghost laws = { partial_equiv_from_equiv (on_equiv statement statement_equiv) };

    fn eq(&self, other: &Stmt) -> bool {
        match (self, other) {
            (
                Stmt::Create {
                    class: c,
                    key: k,
                    pairs: p,
                },
                Stmt::Create {
                    class: d,
                    key: l,
                    pairs: q,
                },
            )
            | (
                Stmt::Update {
                    class: c,
                    key: k,
                    pairs: p,
                },
                Stmt::Update {
                    class: d,
                    key: l,
                    pairs: q,
                },
            ) => c == d && **k == **l && p == q,
            (Stmt::Delete { class: c, key: k }, Stmt::Delete { class: d, key: l }) => {
                c == d && **k == **l
            }
            (
                Stmt::Signal {
                    name: x,
                    arguments: a,
                },
                Stmt::Signal {
                    name: y,
                    arguments: b,
                },
            ) => x == y && a == b,
            (Stmt::Emit(a), Stmt::Emit(b)) => **a == **b,
            (
                Stmt::If {
                    condition: e,
                    then_body: a,
                    else_body: b,
                },
                Stmt::If {
                    condition: f,
                    then_body: c,
                    else_body: d,
                },
            ) => **e == **f && a == c && b == d,
            (
                Stmt::Each {
                    variable: x,
                    class: c,
                    predicate: e,
                    body: a,
                },
                Stmt::Each {
                    variable: y,
                    class: d,
                    predicate: f,
                    body: b,
                },
            )
            | (
                Stmt::With {
                    variable: x,
                    class: c,
                    key: e,
                    body: a,
                },
                Stmt::With {
                    variable: y,
                    class: d,
                    key: f,
                    body: b,
                },
            ) => x == y && c == d && **e == **f && a == b,
            (Stmt::For { query: x, body: a }, Stmt::For { query: y, body: b }) => {
                x == y && a == b
            }
            (
                Stmt::Sub {
                    body: a,
                    otherwise: b,
                },
                Stmt::Sub {
                    body: c,
                    otherwise: d,
                },
            ) => a == c && b == d,
            (
                Stmt::Let {
                    name: x,
                    aggregate: e,
                    body: a,
                },
                Stmt::Let {
                    name: y,
                    aggregate: f,
                    body: b,
                },
            ) => x == y && e == f && a == b,
            (Stmt::Abort, Stmt::Abort) | (Stmt::Veto(None), Stmt::Veto(None)) => true,
            (Stmt::Veto(Some(a)), Stmt::Veto(Some(b))) => **a == **b,
            (
                Stmt::OnRule {
                    operation: o,
                    rule: m,
                },
                Stmt::OnRule {
                    operation: p,
                    rule: n,
                },
            ) => o == p && m == n,
            (Stmt::Fire(m), Stmt::Fire(n)) => m == n,
            _ => false,
        }
    }
}

impl Eq for Stmt {
    ghost use Rattle.std.specs.Cmp.{on_equiv};
    ghost use Rattle.hp_rule.specs.SameStatements.{statement_equiv};
    ghost use Rattle.hp_rule.specs.Statements.{statement};

    ghost laws = { on_equiv statement statement_equiv };
}
