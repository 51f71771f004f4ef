//! The machine and the kind of output of a layout.
ghost use Rattle.std.specs.Prelude.{◌≡◌};
ghost use Rattle.wild_types.specs.Kinds.{is_executable, is_static_executable, is_shared_object, is_partial_link, is_position_independent, has_fixed_load_address, needs_dynamic, needs_dynsym};

/// The machine that the output runs on (gABI, `e_machine`).
#[derive(Clone, Copy, Debug, PartialEq, Eq)]
pub enum Machine {
    /// `EM_X86_64`.
    X86_64,
    /// `EM_AARCH64`.
    AArch64,
}

/// Whether an executable can be loaded at any address.
#[derive(Clone, Copy, Debug, PartialEq, Eq)]
pub enum RelocationModel {
    /// Only at its link-time addresses.
    NonRelocatable,
    /// At any page-aligned base.
    Relocatable,
}

/// The kind of output.
#[derive(Clone, Copy, Debug, PartialEq, Eq)]
pub enum OutputKind {
    /// An executable without a dynamic linker.
    StaticExecutable(RelocationModel),
    /// An executable that a dynamic linker loads.
    DynamicExecutable(RelocationModel),
    /// A shared object.
    SharedObject,
    /// A relocatable object, joined from several.
    PartialObject,
}

impl OutputKind {
    /// Whether the output is an executable, with a dynamic linker or without.
    pub fn is_executable(self) -> bool
        ensures { result ≡ is_executable self }
    {
        matches!(
            self,
            OutputKind::StaticExecutable(_) | OutputKind::DynamicExecutable(_)
        )
    }

    /// Whether the output is an executable without a dynamic linker.
    pub fn is_static_executable(self) -> bool
        ensures { result ≡ is_static_executable self }
    {
        matches!(self, OutputKind::StaticExecutable(_))
    }

    /// Whether the output is a shared object.
    pub fn is_shared_object(self) -> bool
        ensures { result ≡ is_shared_object self }
    {
        matches!(self, OutputKind::SharedObject)
    }

    /// Whether the output is a relocatable object.
    pub fn is_partial_link(self) -> bool
        ensures { result ≡ is_partial_link self }
    {
        matches!(self, OutputKind::PartialObject)
    }

    /// Whether the output is loaded at any page-aligned base.
    pub fn is_position_independent(self) -> bool
        ensures { result ≡ is_position_independent self }
    {
        match self {
            OutputKind::StaticExecutable(model) | OutputKind::DynamicExecutable(model) => {
                matches!(model, RelocationModel::Relocatable)
            }
            OutputKind::SharedObject => true,
            OutputKind::PartialObject => false,
        }
    }

    /// Whether the output is loaded only at its link-time addresses.
    pub fn has_fixed_load_address(self) -> bool
        ensures { result ≡ has_fixed_load_address self }
    {
        self.is_executable() && !self.is_position_independent()
    }

    /// Whether the output has entries for dynamic linking.
    pub fn needs_dynamic(self) -> bool
        ensures { result ≡ needs_dynamic self }
    {
        match self {
            OutputKind::StaticExecutable(model) => matches!(model, RelocationModel::Relocatable),
            OutputKind::DynamicExecutable(_) | OutputKind::SharedObject => true,
            OutputKind::PartialObject => false,
        }
    }

    /// Whether the output has a dynamic symbol table.
    pub fn needs_dynsym(self) -> bool
        ensures { result ≡ needs_dynsym self }
    {
        self.needs_dynamic()
    }
}
