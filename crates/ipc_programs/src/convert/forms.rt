//! The forms of a call's arguments.
ghost use Rattle.std.specs.Prelude.{◌≡◌, false, map, option_map, string_bytes};
ghost use Rattle.ipc_programs.specs.ConvertWords.{asked, wanted_by, copy_named, options_named, place_for};

use arrow2_ipc::io::ipc::write::WriteOptions;

/// The program's forms.
#[derive(Clone, Copy)]
pub enum Form<'a> {
    /// Copies a source to a target, which is written with these options.
    Convert(Source<'a>, Target, WriteOptions),

    /// Appends the stream at the input to the file at a path.
    Append(&'a str),
}

/// What is read.
#[derive(Clone, Copy)]
pub enum Source<'a> {
    /// The stream at the input.
    Input,

    /// The file at a path.
    File(&'a str),
}

/// The format that is written.
#[derive(Clone, Copy)]
pub enum Target {
    Stream,
    File,
}

/// A file that the arguments name.
#[derive(Clone, Copy)]
pub struct Place<'a> {
    /// The path.
    pub path: &'a str,

    /// Whether it is also written to.
    pub is_written: bool,
}

/// The form of these arguments; None if they have no form.
///
/// If the first is `append`, the form is appending.
pub fn form_of(words: &[String]) -> Option<Form<'_>>
    ensures { option_map wanted_by result ≡ asked (map string_bytes words.now) }
{
    let (first, others) = words.split_first()?;
    match (first.as_str(), others) {
        ("append", [path]) => Some(Form::Append(path.as_str())),
        ("append", _) => None,
        (from, [to]) => form_from_to(from, to.as_str(), WriteOptions::default()),
        (from, [to, order]) => form_from_to(from, to.as_str(), options_of(order.as_str())?),
        _ => None,
    }
}

/// The file that a form opens, if there is one.
pub fn place_in(form: Form<'_>) -> Option<Place<'_>>
    ensures { option_map (λ place. (place.path.now, place.is_written)) result
        ≡ place_for (wanted_by form.entry) }
{
    match form {
        Form::Convert(Source::Input, _, _) => None,
        Form::Convert(Source::File(path), _, _) => Some(Place {
            path,
            is_written: false,
        }),
        Form::Append(path) => Some(Place {
            path,
            is_written: true,
        }),
    }
}

fn form_from_to<'a>(from: &'a str, to: &str, write_options: WriteOptions) -> Option<Form<'a>>
    ensures { option_map wanted_by result ≡ copy_named from.now to.now write_options }
{
    let source = if from == "-" {
        Source::Input
    } else {
        Source::File(from)
    };
    let target = match to {
        "stream" => Target::Stream,
        "file" => Target::File,
        _ => return None,
    };
    Some(Form::Convert(source, target, write_options))
}

// The byte order that an argument names.
fn options_of(order: &str) -> Option<WriteOptions>
    ensures { result ≡ options_named order.now }
{
    match order {
        "little" => Some(WriteOptions { big_endian: false }),
        "big" => Some(WriteOptions { big_endian: true }),
        _ => None,
    }
}
