//! The options of the command line.

use rkyv_container::{Contents, ItemType, Kind, Width};

/// The text that `--help` prints.
pub const USAGE: &str = "usage: inspect [OPTION ..] FILE

Validates an archive of a map or a set, and prints its numbers, the strides that lookups of its
keys read, and its bytes field by field. Without --kind, --key, --value and --width, FILE is a
container.

  --kind KIND    FILE is a bare archive of this kind: hash-map, hash-set, index-map or index-set
  --key TYPE     the type of its keys: u32, u64 or text
  --value TYPE   the type of its values, only for a map: u32, u64 or text
  --width BITS   the width of the archive: 32 (the default) or 64
  --color        prints the bytes in colour
  --svg          prints a drawing of the fields alone, as SVG
  -h, --help     prints this text

exit status: 0 if the archive is valid or --help is given, 1 if FILE is no container or the archive
is invalid, 2 if the command line isn't one of these, 3 if there is another error";

/// The options of a command line.
#[derive(Clone, Copy, Debug)]
pub struct Options<'a> {
    /// The file.
    pub file: Option<&'a str>,
    /// The kind of a bare archive.
    pub kind: Option<Kind>,
    /// The type of its keys.
    pub key: Option<ItemType>,
    /// The type of its values.
    pub value: Option<ItemType>,
    /// Its width.
    pub width: Option<Width>,
    /// Whether the bytes are printed in colour.
    pub color: bool,
    /// Whether only the drawing is printed.
    pub svg: bool,
    /// Whether the usage is printed.
    pub help: bool,
}

/// Returns the kind of this name, or `None` if no kind has it.
pub fn kind_named(word: &str) -> Option<Kind> {
    match word {
        "hash-map" => Some(Kind::HashMap),
        "hash-set" => Some(Kind::HashSet),
        "index-map" => Some(Kind::IndexMap),
        "index-set" => Some(Kind::IndexSet),
        _ => None,
    }
}

/// Returns the type of this name, or `None` if no supported type has it.
pub fn type_named(word: &str) -> Option<ItemType> {
    match word {
        "u32" => Some(ItemType::U32),
        "u64" => Some(ItemType::U64),
        "text" => Some(ItemType::Text),
        _ => None,
    }
}

/// Returns the width of this many bits, or `None` if no width has it.
pub fn width_named(word: &str) -> Option<Width> {
    match word {
        "32" => Some(Width::Narrow),
        "64" => Some(Width::Wide),
        _ => None,
    }
}

/// Returns the type of the values of a collection of this kind, which is unit for sets.
fn value_of(kind: Kind, value: Option<ItemType>) -> Option<ItemType> {
    match (kind, value) {
        (Kind::HashMap | Kind::IndexMap, Some(value)) => Some(value),
        (Kind::HashSet | Kind::IndexSet, None) => Some(ItemType::Unit),
        _ => None,
    }
}

impl<'a> Options<'a> {
    fn none() -> Options<'a> {
        Options {
            file: None,
            kind: None,
            key: None,
            value: None,
            width: None,
            color: false,
            svg: false,
            help: false,
        }
    }

    /// Returns the options of a command line, or `None` if its words aren't one of the usage.
    ///
    /// The last value of a repeated option counts. There is at most one file.
    pub fn parse(words: &'a [String]) -> Option<Options<'a>> {
        let mut options = Options::none();
        let mut rest = words.iter();
        while let Some(word) = rest.next() {
            match word.as_str() {
                "--kind" => options.kind = Some(kind_named(rest.next()?.as_str())?),
                "--key" => options.key = Some(type_named(rest.next()?.as_str())?),
                "--value" => options.value = Some(type_named(rest.next()?.as_str())?),
                "--width" => options.width = Some(width_named(rest.next()?.as_str())?),
                "--color" => options.color = true,
                "--svg" => options.svg = true,
                "--help" | "-h" => options.help = true,
                word if word.starts_with('-') || options.file.is_some() => return None,
                word => options.file = Some(word),
            }
        }
        Some(options)
    }

    /// Returns whether the command line has `--kind`, `--key`, `--value` or `--width`.
    pub fn is_bare(self) -> bool {
        self.kind.is_some() || self.key.is_some() || self.value.is_some() || self.width.is_some()
    }

    /// Returns the contents of a bare archive, or `None` if an option is missing or doesn't fit.
    pub fn contents(self) -> Option<Contents> {
        let kind = self.kind?;
        Some(Contents {
            kind,
            key: self.key?,
            value: value_of(kind, self.value)?,
            width: self.width.unwrap_or(Width::Narrow),
        })
    }
}
