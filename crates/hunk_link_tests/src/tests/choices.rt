//! How object files may be linked.

use hunk_tool::LinkOptions;

/// Nothing is left out, and the load file is in its plain form.
pub(crate) const PLAIN: LinkOptions = LinkOptions {
    strip: false,
    short: false,
    trim: false,
};

/// Symbols and debug blocks are left out.
pub(crate) const STRIP: LinkOptions = LinkOptions {
    strip: true,
    short: false,
    trim: false,
};

/// The load file is in its short form.
pub(crate) const SHORT: LinkOptions = LinkOptions {
    strip: false,
    short: true,
    trim: false,
};

/// It is in its short form, and symbols and debug blocks are left out.
pub(crate) const STRIP_SHORT: LinkOptions = LinkOptions {
    strip: true,
    short: true,
    trim: false,
};

/// The load file is trimmed.
pub(crate) const TRIM: LinkOptions = LinkOptions {
    strip: false,
    short: false,
    trim: true,
};

/// It is trimmed, and symbols and debug blocks are left out.
pub(crate) const STRIP_TRIM: LinkOptions = LinkOptions {
    strip: true,
    short: false,
    trim: true,
};

/// It is trimmed and in its short form.
pub(crate) const SHORT_TRIM: LinkOptions = LinkOptions {
    strip: false,
    short: true,
    trim: true,
};

/// It is trimmed and in its short form, and symbols and debug blocks are left out.
pub(crate) const STRIP_SHORT_TRIM: LinkOptions = LinkOptions {
    strip: true,
    short: true,
    trim: true,
};

/// Every choice. Those that trim come last, each in the place of the one that does the rest alone.
pub(crate) static CHOICES: [LinkOptions; 8] = [
    PLAIN,
    STRIP,
    SHORT,
    STRIP_SHORT,
    TRIM,
    STRIP_TRIM,
    SHORT_TRIM,
    STRIP_SHORT_TRIM,
];
