//! Bodies of a script's transactions, with the library against which they are checked.

ghost use Rattle.std.specs.Prelude.{◌≡◌, Ok, []};
ghost use Rattle.hp_rule.specs.Statements.{body_in};
ghost use Rattle.hp_rule.specs.Libraries as libraries;
ghost use Rattle.hp_model.specs.Checked.{script_body_check};

use crate::check::scope::Scope;
use crate::check::statement::check_whole_body;
use crate::context::Context;
use crate::fault::CheckError;
use crate::known_names::KnownNames;
use crate::library::Library;
use crate::place::Place;
use crate::stmt::Stmt;
use std::alloc::{AllocError, Global};
use std::sync::Arc;

/// A body of a script's transaction, checked against its library.
#[derive(Debug, Drop)]
pub struct Body {
    library: Arc<Library>,
    statements: Vec<Stmt>,
    // The body is well formed.
    pub ghost checked: { script_body_check (libraries.library library.value) [] (body_in statements.items) ≡ Ok tt },
}

impl Library {
    ghost use Rattle.std.specs.Prelude.{IfOk};
    ghost use Rattle.hp_model.specs.Checked.{checked_body};
    ghost use Rattle.hp_rule.specs.Faults.{Gives};
    ghost use Rattle.hp_rule.specs.WellNamed.{IsWellNamedBody};
    ghost use Rattle.hp_rule.specs.Mapped.{body};

    /// The body of these statements, if it is well formed with the library.
    ///
    /// Otherwise the error is the first fault, depth first and from left to right, by its path in the body. `Memory`
    /// means that memory ran out, or that an `Arc` could not be cloned.
    pub fn body(
        shared: &Arc<Library>,
        alloc: Global,
        statements: Vec<Stmt>,
    ) -> Result<Body, CheckError>
        ensures well_named { IfOk result (λ b. IsWellNamedBody (libraries.library shared.now.value) (body b)) }
        ensures body { Gives body result
            (checked_body (libraries.library shared.now.value) (body_in statements.items)) }
        ensures library { IfOk result (λ b. b.library.value ≡ shared.now.value) }
    {
        let scope = Scope {
            classes: shared.classes(),
            rules: shared.rules().len(),
            in_action: false,
            condition: &[],
        };
        let context = Context {
            alloc,
            place: Place::Root,
            scope,
            names: KnownNames::Entries(&[]),
        };
        check_whole_body(&context, &statements)?;
        Ok(Body::of_checked(shared, statements)?)
    }
}

impl Body {
    ghost use Rattle.std.specs.Prelude.{IfOk};
    ghost use Rattle.hp_rule.specs.WellNamed.{IsWellNamedBody};
    ghost use Rattle.hp_rule.specs.Mapped.{body};

    /// The body of statements that are known to be well formed with the library, for a reader that checks while it
    /// reads.
    ///
    /// An error means that an `Arc` could not be cloned.
    pub fn of_checked(shared: &Arc<Library>, statements: Vec<Stmt>) -> Result<Body, AllocError>
        requires { script_body_check (libraries.library shared.now.value) [] (body_in statements.items) ≡ Ok tt }
        ensures well_named { IfOk result (λ b. IsWellNamedBody (libraries.library shared.now.value) (body b)) }
        ensures body { IfOk result (λ b. body b ≡ body_in statements.items) }
        ensures library { IfOk result (λ b. b.library.value ≡ shared.now.value) }
    {
        Ok(Body {
            library: Arc::try_clone(shared)?,
            statements,
        })
    }

    /// The library against which the body is checked.
    pub fn library(&self) -> &Arc<Library>
        ensures { result.now ≡ self.now.library }
    {
        &self.library
    }

    /// The body's statements, in order.
    pub fn statements(&self) -> &[Stmt]
        ensures { body_in result.now ≡ body self.now }
    {
        &self.statements
    }
}
