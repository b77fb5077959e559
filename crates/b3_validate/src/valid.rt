//! Modules that are valid.

ghost use Rattle.std.specs.Prelude.{◌≡◌};
ghost use Rattle.b3_ir.specs.Procedure.{procedures};
ghost use Rattle.b3_rules.specs.Valid.{IsValid};

use b3_ir::Module;
use std::marker::Model;

/// A valid module. Contracts see it as the module.
#[derive(Drop)]
pub struct Valid {
    module: Module,
}

impl Model for Valid {
    ghost use Rattle.std.specs.Prelude.{List};
    ghost use Rattle.b3_ir.specs.Procedure.{Kept, procedures};
    ghost use Rattle.b3_rules.specs.Valid.{IsValid};

    ghost Value = { List Kept };

    ghost view = { λ v. v.module };

    ghost invariant = { λ v. IsValid (procedures v.module) };
}

impl Valid {
    /// A module that is valid.
    pub fn new(module_: Module) -> Valid
        requires { IsValid (procedures module_) }
        ensures { result ≡ module_ }
    {
        Valid { module: module_ }
    }

    /// The module.
    pub fn module(&self) -> &Module
        ensures same { result.now ≡ self.now }
        ensures valid { IsValid (procedures result.now) }
    {
        &self.module
    }

    /// The module, to be changed.
    pub fn into_module(self) -> Module
        ensures same { result ≡ self }
        ensures valid { IsValid (procedures result) }
    {
        self.module
    }
}
