//! The texts of faults, and the names of limits and of parts of Pascal that are left out.
ghost use Rattle.std.specs.Prelude.{◌≡◌};
ghost use Rattle.wb_base.specs.ConsoleLine.{text_beside, fault_texts, limit_names, left_out_names, detail_of};

use crate::faults;

// The text of a fault by its number, and none for an unknown one.
pub(crate) fn fault_text(code: u16) -> &'static [u8]
    ensures { result.now ≡ text_beside fault_texts code }
{
    match code {
        faults::LINE_TOO_LONG => b"line too long",
        faults::STRAY_CHANGE_MARK => b"stray change mark",
        faults::NO_NEW_PART => b"no @y",
        faults::NO_END_OF_CHANGE => b"no @z",
        faults::EMPTY_CHANGE => b"empty change",
        faults::CHANGE_NOT_FOUND => b"change block not found",
        faults::CHANGE_LINES_DIFFER => b"change lines differ",
        faults::BAD_BYTE => b"bad byte",
        faults::COMMENT_NOT_ENDED => b"comment not ended",
        faults::STRING_NOT_ENDED => b"string not ended",
        faults::AT_SIGN_NOT_DOUBLED => b"at sign not doubled",
        faults::SECTION_NAME_NOT_ENDED => b"section name not ended",
        faults::STRAY_END => b"stray @> or }",
        faults::BAD_CONTROL_TEXT => b"bad control text",
        faults::POOL_STRING_TOO_LONG => b"pool string too long",
        faults::BAD_DEFINITION => b"bad definition",
        faults::BAD_NUMERIC_DEFINITION => b"bad numeric definition",
        faults::VALUE_TOO_BIG => b"value too big",
        faults::NAME_APPEARED => b"identifier already appeared",
        faults::NAME_DEFINED => b"identifier defined before",
        faults::NAME_CONFLICT => b"identifier conflict",
        faults::UNBALANCED_PARENTHESES => b"parentheses do not balance",
        faults::NO_EQUALS_SIGN => b"equals sign missing",
        faults::DEFINITION_IN_PASCAL => b"definition in Pascal text",
        faults::NO_NAME_MATCHES => b"prefix matches no name",
        faults::SEVERAL_NAMES_MATCH => b"prefix matches several names",
        faults::INCOMPATIBLE_NAMES => b"incompatible section names",
        faults::LIMIT_PASSED => b"limit passed: ",
        faults::SECTION_NOT_PRESENT => b"section not present",
        faults::NO_PARAMETER_GIVEN => b"no parameter given",
        faults::TOO_MANY_LEVELS => b"too many levels",
        faults::TOO_MANY_STEPS => b"too many steps",
        faults::NUMBERS_WITHOUT_SIGN => b"two numbers without a sign",
        faults::CONSTANT_TOO_BIG => b"constant too big",
        faults::REAL_CONSTANT => b"real constant",
        faults::STRING_TOO_LONG => b"string too long",
        faults::LINE_NOT_CUT => b"line too long to cut",
        faults::STRAY_END_OF_METACOMMENT => b"stray end of metacomment",
        faults::METACOMMENT_NOT_ENDED => b"metacomment not ended",
        faults::BAD_POOL_LENGTH => b"pool length bad",
        faults::POOL_LINE_TOO_SHORT => b"pool line too short",
        faults::BAD_LAST_LINE => b"bad last line",
        faults::CHECK_SUM_LEFT_OUT => b"check sum left out",
        faults::BAD_PASCAL_BYTE => b"bad byte",
        faults::BAD_PASCAL_TOKEN => b"bad token",
        faults::PASCAL_SYNTAX => b"syntax",
        faults::PASCAL_LEFT_OUT => b"left out: ",
        faults::UNKNOWN_NAME => b"unknown name",
        faults::DUPLICATE_NAME => b"duplicate",
        faults::WRONG_TYPE => b"type",
        faults::CONSTANT_OUT_OF_RANGE => b"constant out of range",
        faults::WRONG_LABEL => b"label",
        faults::WRONG_GOTO => b"goto",
        faults::TOO_LARGE => b"too large",
        faults::FILE_RULE => b"file rule",
        faults::RESULT_NEVER_ASSIGNED => b"result never assigned",
        faults::BAD_C_TOKEN => b"bad token",
        faults::C_SYNTAX => b"syntax",
        faults::C_STRUCTURE => b"structure",
        _ => b"",
    }
}

// What stands after that text: the name of the limit that was passed, or of the part of Pascal that is left out.
pub(crate) fn fault_detail(code: u16, which: u8) -> &'static [u8]
    ensures { result.now ≡ detail_of code which }
{
    match code {
        faults::LIMIT_PASSED => limit_name(which),
        faults::PASCAL_LEFT_OUT => left_out_name(which),
        _ => b"",
    }
}

// The name of a limit.
fn limit_name(which: u8) -> &'static [u8]
    ensures { result.now ≡ text_beside limit_names which }
{
    match which {
        faults::LIMIT_FILE_BYTES => b"file bytes",
        faults::LIMIT_NAMES => b"names",
        faults::LIMIT_SECTION_NAMES => b"section names",
        faults::LIMIT_TOKENS => b"tokens",
        faults::LIMIT_STRINGS => b"strings",
        faults::LIMIT_SECTIONS => b"sections",
        _ => b"",
    }
}

// The name of a part of Pascal that is left out.
fn left_out_name(which: u8) -> &'static [u8]
    ensures { result.now ≡ text_beside left_out_names which }
{
    match which {
        faults::REAL_NUMBERS => b"real numbers",
        faults::VARIANT_RECORDS => b"variant record",
        faults::NESTED_ROUTINES => b"nested routine",
        faults::ENUMERATIONS => b"enumeration",
        faults::SETS => b"set",
        faults::POINTERS => b"pointer",
        faults::WITH_STATEMENTS => b"with",
        faults::ROUTINES_AS_PARAMETERS => b"routine as parameter",
        faults::READING_NUMBERS => b"reading a number",
        faults::STRINGS_OUTSIDE_WRITE => b"string outside write",
        faults::LOCAL_CONSTANTS_AND_TYPES => b"local constant or type",
        faults::NESTING_PAST_LIMIT => b"nesting",
        _ => b"",
    }
}
