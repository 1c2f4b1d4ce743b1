//! The forms of a call's arguments.
ghost use Rattle.std.specs.Prelude.{◌≡◌, map, option_map, string_bytes, IfSome};
ghost use Rattle.ipc_programs.specs.CatWords.{HasNumbers, NamesNumbers, asked, wanted_by, columns_by, columns_named, demo_asked, file_asked, is_decimal, limit_named, stream_asked};

/// The program's forms.
#[derive(Clone, Copy)]
pub enum Form<'a> {
    /// `demo`: prints the example, as a stream.
    Demo,

    /// `stream`: prints these columns of a stream.
    Stream(Columns<'a>),

    /// `file`: prints this part of a file.
    File(FileWords<'a>),
}

/// A file, and the part of it that is printed.
#[derive(Clone, Copy)]
pub struct FileWords<'a> {
    /// The path of the file.
    pub path: &'a str,

    /// The columns.
    pub columns: Columns<'a>,

    /// The most rows of all chunks together; None means all.
    pub limit: Option<usize>,
}

/// The columns that are printed.
#[derive(Clone, Copy)]
pub enum Columns<'a> {
    /// All, in the order of the schema.
    All,

    /// Those at these positions, in their order: decimal digits joined by commas.
    ///
    /// They are compared with the schema when that is read.
    At(&'a str),
}

/// The form of these arguments; None if they have no form.
pub fn form_of(words: &[String]) -> Option<Form<'_>>
    ensures is { option_map wanted_by result ≡ asked (map string_bytes words.now) }
    ensures numbers { IfSome result HasNumbers }
{
    let (name, others) = words.split_first()?;
    match name.as_str() {
        "demo" => demo_form(others),
        "stream" => stream_form(others),
        "file" => file_form(others),
        _ => None,
    }
}

fn demo_form(words: &[String]) -> Option<Form<'_>>
    ensures is { option_map wanted_by result ≡ demo_asked (map string_bytes words.now) }
    ensures numbers { IfSome result HasNumbers }
{
    if words.is_empty() {
        Some(Form::Demo)
    } else {
        None
    }
}

fn stream_form(words: &[String]) -> Option<Form<'_>>
    ensures is { option_map wanted_by result ≡ stream_asked (map string_bytes words.now) }
    ensures numbers { IfSome result HasNumbers }
{
    match words {
        [] => Some(Form::Stream(Columns::All)),
        [word] => Some(Form::Stream(columns_in(word.as_str())?)),
        _ => None,
    }
}

fn file_form(words: &[String]) -> Option<Form<'_>>
    ensures is { option_map wanted_by result ≡ file_asked (map string_bytes words.now) }
    ensures numbers { IfSome result HasNumbers }
{
    let (path, others) = words.split_first()?;
    let (columns, limit) = match others {
        [] => (Columns::All, None),
        [columns] => (columns_in(columns.as_str())?, None),
        [columns, limit] => (
            columns_in(columns.as_str())?,
            Some(limit_in(limit.as_str())?),
        ),
        _ => return None,
    };
    let path = path.as_str();
    Some(Form::File(FileWords {
        path,
        columns,
        limit,
    }))
}

// `-`, which means all columns, or positions joined by commas.
fn columns_in(word: &str) -> Option<Columns<'_>>
    ensures is { option_map columns_by result ≡ columns_named word.now }
    ensures numbers { IfSome result NamesNumbers }
{
    if word == "-" {
        return Some(Columns::All);
    }
    if word.split(',').all(|position| is_decimal(position)) {
        return Some(Columns::At(word));
    }
    None
}

// A number of rows, at most `2^64 - 1`.
fn limit_in(word: &str) -> Option<usize>
    ensures { result ≡ limit_named word.now }
{
    if is_decimal(word) {
        word.parse().ok()
    } else {
        None
    }
}

// Whether a word has decimal digits only. Leading zeros are allowed.
fn is_decimal(word: &str) -> bool
    ensures { result ≡ is_decimal word.now }
{
    !word.is_empty() && word.bytes().all(|byte| byte.is_ascii_digit())
}
