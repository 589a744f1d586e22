// The errors of a merge: the variants of the Rust's `BuildError`, in its order, each with its number, which specs/Numbers.antt gives too.
ghost use Rattle.std.specs.Prelude.{◌≡◌};
ghost use Rattle.definition.specs.Numbers.{error_number};

#[derive(Clone, Copy, PartialEq, Eq)]
pub enum BuildError {
    ExecutableDefinition = 1,
    SchemaDefinitionCollision = 2,
    DirectiveDefinitionCollision = 3,
    TypeDefinitionCollision = 4,
    BuiltInScalarTypeRedefinition = 5,
    OrphanSchemaExtension = 6,
    OrphanTypeExtension = 7,
    TypeExtensionKindMismatch = 8,
    DuplicateRootOperation = 9,
    DuplicateImplementsInterfaceInObject = 10,
    DuplicateImplementsInterfaceInInterface = 11,
    ObjectFieldNameCollision = 12,
    InterfaceFieldNameCollision = 13,
    EnumValueNameCollision = 14,
    UnionMemberNameCollision = 15,
    InputFieldNameCollision = 16,
}

impl BuildError {
    pub fn number(self) -> u32
        ensures { result ≡ error_number self }
    {
        self as u32
    }
}

// How many there are.
pub const ERROR_NUMBERS: usize = 16;
