//! What can be wrong with a store of an encoded document, each cause with the values that show it.

/// Why the bytes of a store were refused.
#[derive(Clone, Copy, Debug, PartialEq, Eq)]
pub enum ReadFault {
    /// The store's first bytes are not a header.
    BadHeader,
    /// The digest of the root string, made of the header and the top digest, is not the wanted root.
    WrongRoot {
        want: [u8; 32],
        made: [u8; 32],
    },
    /// The key check made from the key is not the one in the header.
    WrongKey {
        want: [u8; 16],
        made: [u8; 16],
    },
    /// The store ends at the byte offset `at`, before the end of what was asked for.
    StoreShort {
        at: u64,
    },
    /// The store failed.
    StoreFault,
    /// The digest made from the bytes read for fragment `index` (from 0) is not the wanted one.
    BadFragment {
        index: u32,
        want: [u8; 32],
        made: [u8; 32],
    },
    /// The bytes have the wanted digests, but don't encode a document.
    BadIndex,
}
