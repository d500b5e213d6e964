//! The limits of documents, paths, licences and keys, as `specs/Limits.antt` has them.

/// The most bytes of a name.
pub const MOST_NAME_BYTES: usize = 255;

/// The most attributes of an element.
pub const MOST_ATTRIBUTES: usize = 65_535;

/// The most elements that are open at once, the root counted.
pub const MOST_OPEN_ELEMENTS: u16 = 255;

/// The most bytes of a document's lines.
pub const MOST_DOCUMENT_BYTES: u32 = 33_554_432;

/// The most names of a dictionary.
pub const MOST_NAMES: usize = 256;

/// The most bytes of a dictionary section and a tree section together.
pub const MOST_STREAM_BYTES: u64 = 33_554_432;

/// The most bytes of a path as it is written.
pub const MOST_PATH_BYTES: u32 = 1024;

/// The most bytes of a literal, without its quotes.
pub const MOST_LITERAL_BYTES: usize = 255;

/// The most digits of a whole number, leading zeros counted.
pub const MOST_DIGITS: u32 = 18;

/// The most rules of a licence.
pub const MOST_RULES: usize = 64;

/// The most steps of all paths of a licence together, and of the path of a query.
pub const MOST_STEPS: u32 = 256;

/// The most steps of predicates, counted in the same way.
pub const MOST_PRED_STEPS: u32 = 256;

/// The most predicates, counted in the same way.
pub const MOST_PREDS: u32 = 64;

/// The most bytes of a rule's id.
pub const MOST_ID_BYTES: usize = 32;

/// The most bytes of a licence's user.
pub const MOST_USER_BYTES: usize = 255;

/// The most bytes of a key file, of a licence, and of the body of a licence.
pub const MOST_KEY_BYTES: u32 = 131_072;
