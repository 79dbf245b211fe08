//! The two streams, and what each register is there for.

ghost use Rattle.std.specs.Prelude.{◌≡◌, ◌≤◌};
ghost use Rattle.double_law.specs.Roles.{RoleFits, reg_in};

/// The master stream and its shadow.
#[derive(Clone, Copy, Debug, PartialEq, Eq)]
pub enum Stream {
    /// The master.
    First,
    /// The shadow.
    Second,
}

/// What a register is there for.
#[derive(Clone, Copy, Debug, PartialEq, Eq)]
pub enum Role {
    /// One of ten values.
    Value(u8),
    /// The stack pointer.
    Stack,
    /// The return address.
    Link,
}

/// The register of a role in a stream.
pub fn register(stream: Stream, role: Role) -> u8
    requires { RoleFits role }
    ensures { result ≡ reg_in stream role }
{
    match stream {
        Stream::First => match role {
            Role::Value(k) => 4 + k,
            Role::Stack => 29,
            Role::Link => 31,
        },
        Stream::Second => match role {
            Role::Value(k) => 14 + k,
            Role::Stack => 30,
            Role::Link => 25,
        },
    }
}
