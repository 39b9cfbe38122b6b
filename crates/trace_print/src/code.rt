ghost use Rattle.std.specs.Prelude.{◌≡◌, ◌≤◌, length};
ghost use Rattle.trace_print.specs.Refusals.{code_text};

/// The code of a broken rule. The letter tells the stage: L the bytes, S the syntax, N names, Y types, C clocks, Q the
/// order of equations, I the table of inputs, P the plan of the run.
#[derive(Clone, Copy, Debug, PartialEq, Eq)]
pub enum Code {
    /// A file has more bytes than its limit.
    L0,
    /// A byte begins no token, comment or separator.
    L1,
    /// A comment or a text in quotes does not end.
    L2,
    /// A whole number does not fit 64 bits.
    L3,
    /// A name has more than 128 bytes.
    L4,
    /// No text of the grammar begins with the tokens up to this one.
    S1,
    /// A token stands inside more than 64 levels of brackets and if-expressions.
    S2,
    /// As `S1`, at a token that Modelica has and this profile has no place for.
    S3,
    /// The chosen class is not there, or a type name is unknown.
    N1,
    /// A second class, or a second component, of one name.
    N2,
    /// A name is unknown, or names nothing that may stand there.
    N3,
    /// A class contains itself.
    N4,
    /// A modification of what is not there, or a second one of the same.
    N5,
    /// The value of a parameter, a constant or a start depends on itself.
    N6,
    /// The value of a parameter, a constant or a start is none of its type.
    N7,
    /// An argument of `connect` is no connector, or the two do not match.
    N8,
    /// A component or a member of a connector has a type that the profile does not have there.
    N9,
    /// The model has more names, equations or tokens than their limit.
    N10,
    /// A component stands too deep in others.
    N11,
    /// Types differ.
    Y1,
    /// An argument that must be a component name is none.
    Y2,
    /// A function is unknown, or does not take so many arguments.
    Y3,
    /// A counter, a factor or a resolution is no constant in its range.
    Y4,
    /// A form of Modelica that this profile does not have.
    Y5,
    /// A class is clocked and unclocked at once.
    C1,
    /// A clocked class gets no clock.
    C2,
    /// A clock is too fine to be told exactly.
    C3,
    /// A clock or a conversion does not hold.
    C4,
    /// An inferred factor is not whole, or the starts differ.
    C5,
    /// A periodic clock starts before the instant 0.
    C6,
    /// A base partition has an event clock and another constructor.
    C7,
    /// The shift of an event clock is below 0 or not whole.
    C8,
    /// The factor of an event clock is not whole.
    C9,
    /// The condition of an event clock reads a held value.
    C10,
    /// All names are reached, and an equation is left over.
    Q1,
    /// More names are left than equations that could give them.
    Q2,
    /// An equation cannot be solved for the one name that it could give.
    Q3,
    /// Equations depend on each other in a cycle.
    Q4,
    /// The table has no header, or it does not begin with the time.
    I1,
    /// An input has no column.
    I2,
    /// A field of the header is no input, or repeats one before it.
    I3,
    /// A field is no value of its column.
    I4,
    /// The first time is not 0, or there is no row.
    I5,
    /// A later time is not above the one before.
    I6,
    /// A record is not as long as the header.
    I7,
    /// The run has more ticks and rows than its limit.
    P1,
}

impl Code {
    /// The code as it is printed: its own name.
    pub fn text(self) -> &'static [u8]
        ensures text { result.now ≡ code_text self }
        ensures short { length result.now ≤ 3 }
    {
        match self {
            Code::L0 => b"L0",
            Code::L1 => b"L1",
            Code::L2 => b"L2",
            Code::L3 => b"L3",
            Code::L4 => b"L4",
            Code::S1 => b"S1",
            Code::S2 => b"S2",
            Code::S3 => b"S3",
            Code::N1 => b"N1",
            Code::N2 => b"N2",
            Code::N3 => b"N3",
            Code::N4 => b"N4",
            Code::N5 => b"N5",
            Code::N6 => b"N6",
            Code::N7 => b"N7",
            Code::N8 => b"N8",
            Code::N9 => b"N9",
            Code::N10 => b"N10",
            Code::N11 => b"N11",
            Code::Y1 => b"Y1",
            Code::Y2 => b"Y2",
            Code::Y3 => b"Y3",
            Code::Y4 => b"Y4",
            Code::Y5 => b"Y5",
            Code::C1 => b"C1",
            Code::C2 => b"C2",
            Code::C3 => b"C3",
            Code::C4 => b"C4",
            Code::C5 => b"C5",
            Code::C6 => b"C6",
            Code::C7 => b"C7",
            Code::C8 => b"C8",
            Code::C9 => b"C9",
            Code::C10 => b"C10",
            Code::Q1 => b"Q1",
            Code::Q2 => b"Q2",
            Code::Q3 => b"Q3",
            Code::Q4 => b"Q4",
            Code::I1 => b"I1",
            Code::I2 => b"I2",
            Code::I3 => b"I3",
            Code::I4 => b"I4",
            Code::I5 => b"I5",
            Code::I6 => b"I6",
            Code::I7 => b"I7",
            Code::P1 => b"P1",
        }
    }
}
