//! The value of an expression.

ghost use Rattle.std.specs.Prelude.{◌≡◌, IfSome, Ok};
ghost use Rattle.hp_model.specs.Values.{integer, boolean};
ghost use Rattle.hp_model.specs.Expressions as model;
ghost use Rattle.hp_model.specs.Expressions.{value_of};
ghost use Rattle.hp_model.specs.Firing.{boolean_value, integer_value};
ghost use Rattle.hp_value.specs.Mapped.{Meets, outcome, operand, value, environment, expression, arithmetic};
ghost use Rattle.hp_value.specs.Mapped.{comparison};

use crate::env::Env;
use crate::expr::{Arithmetic, Comparison, Expr};
use crate::halt::{Cause, Halt};
use crate::operand::Operand;
use crate::operator::negated;
use crate::value::Value;
use std::alloc::Global;

impl Expr {
    /// The value of the expression, or why it has none. Operands are evaluated first, from left to right; then their
    /// kinds are tested, and then the result.
    ///
    /// The cause is `Kind` for a value of the wrong kind or an unknown name, `Overflow` for a result outside the range
    /// of `i64`, `DivideByZero` for a zero divisor, and `NoParameter` where the occurrence lacks what the expression
    /// reads. `Memory` means that copying a text ran out of memory.
    pub fn eval(&self, alloc: Global, env: &Env<'_>) -> Result<Value, Halt>
        ensures { Meets value result (value_of (environment env.now) (expression self.now)) }
    {
        Ok(self.operand(env)?.to_value(alloc)?)
    }

    /// The boolean that the expression is. It allocates nothing.
    ///
    /// The causes are those of [`Expr::eval`], and `Kind` for a value that is no boolean.
    pub fn boolean(&self, env: &Env<'_>) -> Result<bool, Cause>
        ensures { outcome (λ b. b) result ≡ boolean_value (environment env.now) (expression self.now) }
    {
        self.is_true(env)
    }

    /// What [`Expr::boolean`] is.
    #[cycle(operand)]
    fn is_true<'a>(&'a self, env: &Env<'a>) -> Result<bool, Cause>
        ensures { outcome (λ b. b) result ≡ boolean_value (environment env.now) (expression self.now) }
    {
        match self {
            Expr::Comparison(op, a, b) => is_comparison_true(env, *op, a, b),
            Expr::Not(a) => inversion(env, a),
            Expr::And(a, b) => are_both_true(env, a, b),
            Expr::Or(a, b) => is_either_true(env, a, b),
            _ => self.operand(env)?.as_bool(),
        }
    }

    /// The integer that the expression is. It allocates nothing.
    ///
    /// The causes are those of [`Expr::eval`], and `Kind` for a value that is no integer.
    pub fn integer(&self, env: &Env<'_>) -> Result<i64, Cause>
        ensures { outcome (λ z. z) result ≡ integer_value (environment env.now) (expression self.now) }
    {
        self.operand(env)?.as_int()
    }

    /// The expression's value, where it stands.
    #[cycle(operand)]
    fn operand<'a>(&'a self, env: &Env<'a>) -> Result<Operand<'a>, Cause>
        ensures { outcome operand result ≡ value_of (environment env.now) (expression self.now) }
    {
        match self {
            Expr::Constant(constant) => Ok(constant.value().as_operand()),
            Expr::FieldOf { variable, field } => standing(env.field_of(
                variable.as_str(),
                field.as_str(),
            )),
            Expr::KeyOf { variable } => number(env.key_of(variable.as_str())),
            Expr::NewField { part, field } => standing(env.new_field(*part, field.as_str())),
            Expr::OldField { part, field } => standing(env.old_field(*part, field.as_str())),
            Expr::KeyIn { part } => number(env.key_in(*part)),
            Expr::Argument { part, place } => standing(env.argument(*part, *place)),
            Expr::TimeOf { part } => number(env.time_of(*part)),
            Expr::Count => number(env.count()),
            Expr::ValueOf { name } => standing(env.value_of(name.as_str())),
            Expr::Now => number(env.moment()),
            Expr::Arithmetic(op, a, b) => number(calculation(env, *op, a, b)),
            Expr::Comparison(op, a, b) => truth(is_comparison_true(env, *op, a, b)),
            Expr::Negated(a) => number(negation(env, a)),
            Expr::Not(a) => truth(inversion(env, a)),
            Expr::And(a, b) => truth(are_both_true(env, a, b)),
            Expr::Or(a, b) => truth(is_either_true(env, a, b)),
        }
    }

    /// The integer that the expression is. `None` means that it has no value, or one that is no integer.
    // An operand goes from function to function in memory, and an `Option` of an integer in two registers. This
    // evaluates no values of other kinds: else a fault beneath many operators would be looked for twice at each of
    // them.
    #[cycle(known)]
    fn known_integer(&self, env: &Env<'_>) -> Option<i64>
        ensures { IfSome result (λ z. value_of (environment env.now) (expression self.now) ≡ Ok (integer z)) }
    {
        match self {
            Expr::Constant(constant) => integer_in(constant.value()),
            Expr::FieldOf { variable, field } => found_integer(env.field_of(
                variable.as_str(),
                field.as_str(),
            )),
            Expr::NewField { part, field } => found_integer(env.new_field(*part, field.as_str())),
            Expr::Arithmetic(op, a, b) => known_result(env, *op, a, b),
            Expr::Negated(a) => known_negation(env, a),
            _ => self.known_attribute(env),
        }
    }

    // The same for what is asked more rarely, whose temporaries would make the stack frame larger.
    #[inline(never)]
    fn known_attribute(&self, env: &Env<'_>) -> Option<i64>
        ensures { IfSome result (λ z. value_of (environment env.now) (expression self.now) ≡ Ok (integer z)) }
    {
        match self {
            Expr::KeyOf { variable } => found_number(env.key_of(variable.as_str())),
            Expr::OldField { part, field } => found_integer(env.old_field(*part, field.as_str())),
            Expr::KeyIn { part } => found_number(env.key_in(*part)),
            Expr::Argument { part, place } => found_integer(env.argument(*part, *place)),
            Expr::TimeOf { part } => found_number(env.time_of(*part)),
            Expr::Count => found_number(env.count()),
            Expr::ValueOf { name } => found_integer(env.value_of(name.as_str())),
            Expr::Now => found_number(env.moment()),
            _ => None,
        }
    }
}

// A value that was found, as an operand.
fn standing<'a>(found: Result<&'a Value, Cause>) -> Result<Operand<'a>, Cause>
    ensures { outcome operand result ≡ outcome (λ v. value v.now) found.entry }
{
    Ok(found?.as_operand())
}

// A number, as an operand.
fn number<'a>(found: Result<i64, Cause>) -> Result<Operand<'a>, Cause>
    ensures { outcome operand result ≡ outcome integer found }
{
    Ok(Operand::Int(found?))
}

// A truth value, as an operand.
fn truth<'a>(found: Result<bool, Cause>) -> Result<Operand<'a>, Cause>
    ensures { outcome operand result ≡ outcome boolean found }
{
    Ok(Operand::Bool(found?))
}

// The integer that a value is. `None` means that it is none.
fn integer_in(given: &Value) -> Option<i64>
    ensures { IfSome result (λ z. value given.now ≡ integer z) }
{
    match given {
        Value::Int(z) => Some(*z),
        Value::Bool(_) | Value::Text(_) => None,
    }
}

// The integer that was found. `None` means that nothing was, or no integer.
fn found_integer(found: Result<&Value, Cause>) -> Option<i64>
    ensures { IfSome result (λ z. outcome (λ v. value v.now) found.entry ≡ Ok (integer z)) }
{
    match found {
        Ok(given) => integer_in(given),
        Err(_) => None,
    }
}

// The number that was found. `None` means that nothing was.
fn found_number(found: Result<i64, Cause>) -> Option<i64>
    ensures { IfSome result (λ z. outcome integer found ≡ Ok (integer z)) }
{
    match found {
        Ok(z) => Some(z),
        Err(_) => None,
    }
}

// Operators have functions of their own, which keeps the stack frame of `operand` small: a frame holds the temporaries
// of all its arms and clears them on entry, whichever arm runs.

// The integer that an arithmetic operator gives for two integers. `None` means that it gives none, or that an operand
// is none.
#[cycle(known)]
fn known_result(env: &Env<'_>, op: Arithmetic, a: &Expr, b: &Expr) -> Option<i64>
    ensures { IfSome result (λ z. value_of (environment env.now)
        (model.arithmetic (arithmetic op) (expression a.now) (expression b.now)) ≡ Ok (integer z)) }
{
    let x = a.known_integer(env)?;
    let y = b.known_integer(env)?;
    found_number(op.calculate(x, y))
}

// The negated integer. `None` means that there is none.
#[cycle(known)]
fn known_negation(env: &Env<'_>, a: &Expr) -> Option<i64>
    ensures { IfSome result (λ z. value_of (environment env.now) (model.negated (expression a.now)) ≡ Ok (integer z)) }
{
    let x = a.known_integer(env)?;
    found_number(negated(x))
}

// The result of an arithmetic operator on two operands.
#[cycle(operand)]
fn calculation<'a>(env: &Env<'a>, op: Arithmetic, a: &'a Expr, b: &'a Expr) -> Result<i64, Cause>
    ensures { outcome integer result ≡ value_of (environment env.now)
        (model.arithmetic (arithmetic op) (expression a.now) (expression b.now)) }
{
    if let Some(z) = known_result(env, op, a, b) {
        return Ok(z);
    }
    let v = a.operand(env)?;
    let w = b.operand(env)?;
    op.calculate(v.as_int()?, w.as_int()?)
}

// Whether a comparison of two operands holds.
#[cycle(operand)]
fn is_comparison_true<'a>(
    env: &Env<'a>,
    op: Comparison,
    a: &'a Expr,
    b: &'a Expr,
) -> Result<bool, Cause>
    ensures { outcome boolean result ≡ value_of (environment env.now)
        (model.compared (comparison op) (expression a.now) (expression b.now)) }
{
    // The right operand is mostly a constant. If it is a text, the left one isn't looked up as an integer.
    if let Some(y) = b.known_integer(env) {
        if let Some(x) = a.known_integer(env) {
            return Ok(op.is_true_of(x, y));
        }
    }
    let v = a.operand(env)?;
    let w = b.operand(env)?;
    op.compare_operands(v, w)
}

// The negated integer.
#[cycle(operand)]
fn negation<'a>(env: &Env<'a>, a: &'a Expr) -> Result<i64, Cause>
    ensures { outcome integer result ≡ value_of (environment env.now) (model.negated (expression a.now)) }
{
    negated(a.operand(env)?.as_int()?)
}

// The negated boolean.
#[cycle(operand)]
fn inversion<'a>(env: &Env<'a>, a: &'a Expr) -> Result<bool, Cause>
    ensures { outcome boolean result ≡ value_of (environment env.now) (model.inverted (expression a.now)) }
{
    Ok(!a.is_true(env)?)
}

// Logical and. The second operand is evaluated only if the first is true.
#[cycle(operand)]
fn are_both_true<'a>(env: &Env<'a>, a: &'a Expr, b: &'a Expr) -> Result<bool, Cause>
    ensures { outcome boolean result
        ≡ value_of (environment env.now) (model.both (expression a.now) (expression b.now)) }
{
    if !a.is_true(env)? {
        return Ok(false);
    }
    b.is_true(env)
}

// Logical or. The second operand is evaluated only if the first is false.
#[cycle(operand)]
fn is_either_true<'a>(env: &Env<'a>, a: &'a Expr, b: &'a Expr) -> Result<bool, Cause>
    ensures { outcome boolean result
        ≡ value_of (environment env.now) (model.either (expression a.now) (expression b.now)) }
{
    if a.is_true(env)? {
        return Ok(true);
    }
    b.is_true(env)
}
