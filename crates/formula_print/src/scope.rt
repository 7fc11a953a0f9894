ghost use Rattle.std.specs.Prelude.{◌≡◌, ◌++◌, ◌∷◌, [], take, map, IfOk, OnOk, length};
ghost use Rattle.formula_print.specs.Scope as spec;

use crate::bound_names::BoundNames;
use base_values::{Items, Text};
use formula_tree::Parameter;
use std::alloc::{AllocError, Global};

/// The names that are bound at a place of a formula.
#[derive(Drop)]
pub(crate) struct Scope {
    /// Whether bound names are marked there.
    pub marks: bool,
    pub names: BoundNames,
}

fn with_prefix(alloc: Global, prefix: &str, name: &Text) -> Result<Text, AllocError>
    ensures { IfOk result (λ text. text ≡ prefix.now ++ name.now) }
{
    let mut text = String::from_str(alloc, prefix)?;
    text.push_str(name.as_str())?;
    Ok(Text::new(text))
}

/// A parameter where it is declared.
fn stored_parameter(alloc: Global, parameter: &Parameter) -> Result<Parameter, AllocError>
    ensures { IfOk result (λ stored. stored ≡ spec.stored_parameter parameter.now) }
{
    let prefix = if parameter.optional {
        "_xlop."
    } else {
        "_xlpm."
    };
    Ok(Parameter {
        name: with_prefix(alloc, prefix, &parameter.name)?,
        optional: false,
    })
}

impl Scope {
    /// No name is bound outside of lambdas and `LET`.
    pub(crate) fn outermost(alloc: Global) -> Scope
        ensures { result ≡ spec.outermost }
    {
        Scope {
            marks: true,
            names: BoundNames::empty(alloc),
        }
    }

    fn is_marked(&self, name: &Text) -> bool
        ensures { result ≡ spec.is_marked self.now name.now }
    {
        self.marks && self.names.contains(name)
    }

    /// A name where it is used.
    pub(crate) fn used_name(&self, name: &Text) -> Result<Text, AllocError>
        ensures { IfOk result (λ text. text ≡ spec.used_name self.now name.now) }
    {
        if self.is_marked(name) {
            with_prefix(self.names.allocator(), "_xlpm.", name)
        } else {
            name.clone()
        }
    }

    /// A name where `LET` declares it.
    pub(crate) fn declared_name(&self, name: &Text) -> Result<Text, AllocError>
        ensures { IfOk result (λ text. text ≡ spec.declared_name self.now name.now) }
    {
        if self.marks {
            with_prefix(self.names.allocator(), "_xlpm.", name)
        } else {
            name.clone()
        }
    }

    /// The parameters of a lambda where they are declared.
    pub(crate) fn stored_parameters(
        &self,
        parameters: &[Parameter],
    ) -> Result<Items<Parameter>, AllocError>
        ensures { IfOk result (λ stored. stored ≡ map spec.stored_parameter parameters.now) }
    {
        let alloc = self.names.allocator();
        let mut stored = Items::empty(alloc);
        for parameter in parameters {
            stored.push(stored_parameter(alloc, parameter)?)?;
        }
        Ok(stored)
    }

    /// Binds a name from here on.
    pub(crate) fn bind(&mut self, name: &Text) -> Result<(), AllocError>
        ensures { OnOk result (self.new ≡ spec.bind self.old name.now) }
    {
        self.names.push(name)
    }

    /// Binds the parameters of a lambda.
    #[tactic(auto, using(crate::proofs::Scopes::binds_more))]
    pub(crate) fn bind_parameters(&mut self, parameters: &[Parameter]) -> Result<(), AllocError>
        ensures { OnOk result (self.new ≡ spec.bind_parameters self.old parameters.now) }
    {
        for parameter in parameters {
            self.bind(&parameter.name)?;
        }
        Ok(())
    }

    /// Forgets the names that were bound since there were this many.
    pub(crate) fn forget(&mut self, len: usize)
        ensures { self.new ≡ record self.old { names = take len self.old.names } }
    {
        self.names.truncate(len);
    }
}
