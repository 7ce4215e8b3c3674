//! Control codes.
ghost use Rattle.std.specs.Prelude.{◌≡◌};
ghost use Rattle.web_lex.specs.Codes.{code_of};

/// What an at sign means together with the byte after it. The table is the WEB profile's.
#[derive(Clone, Copy, Debug, PartialEq, Eq)]
pub enum Code {
    /// Any byte that has no meaning after an at sign.
    Ignore,
    /// `@@`: one at sign.
    At,
    /// `@'`: an octal number.
    Octal,
    /// `@"`: a hexadecimal number.
    Hex,
    /// `@$`: the check sum of the pool, which is left out.
    LeftOut,
    /// `@{`: the begin of a metacomment.
    MetaOpen,
    /// `@}`: the end of a metacomment.
    MetaClose,
    /// `@&`: what stands around it is joined.
    Join,
    /// `@=`: a verbatim text.
    Verbatim,
    /// `@\`: a forced line.
    Line,
    /// `@^`, `@.`, `@:` and `@t`: a control text, which is skipped.
    Control,
    /// `@>` where no text is to be ended.
    Stray,
    /// `@d`: a definition.
    Definition,
    /// `@f`: a format.
    Format,
    /// `@p`: the text of the unnamed section.
    Pascal,
    /// `@<`: the name of a section.
    Name,
    /// `@` with a space, a tab or `*`: the start of a section. The end of a line counts as a space.
    Section,
    /// The end of the input, which no byte means.
    End,
}

/// The code of an at sign followed by this byte. Letters stand in either case.
pub fn control_code(byte: u8) -> Code
    ensures { result ≡ code_of byte }
{
    match byte {
        b'@' => Code::At,
        b'\'' => Code::Octal,
        b'"' => Code::Hex,
        b'$' => Code::LeftOut,
        b'{' => Code::MetaOpen,
        b'}' => Code::MetaClose,
        b'&' => Code::Join,
        b'=' => Code::Verbatim,
        b'\\' => Code::Line,
        b'^' | b'.' | b':' | b't' | b'T' => Code::Control,
        b'>' => Code::Stray,
        b'd' | b'D' => Code::Definition,
        b'f' | b'F' => Code::Format,
        b'p' | b'P' => Code::Pascal,
        b'<' => Code::Name,
        b' ' | b'\t' | b'*' => Code::Section,
        _ => Code::Ignore,
    }
}
