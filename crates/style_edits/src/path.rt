ghost use Rattle.std.specs.Prelude.{◌≡◌};
ghost use Rattle.base_tables.specs.Tables.{entry_named};
ghost use Rattle.style_edits.specs.Paths.{all_paths, path_name};

/// An attribute of a font.
#[derive(Clone, Copy)]
pub(crate) enum FontPath {
    Bold,
    Italic,
    Underline,
    Strike,
    Color,
    Size,
    /// What is added to the size.
    SizeDelta,
}

/// The three names of the one colour behind a text.
#[derive(Clone, Copy)]
pub(crate) enum FillPath {
    Color,
    Background,
    Foreground,
}

/// An attribute of an alignment.
#[derive(Clone, Copy)]
pub(crate) enum AlignmentPath {
    Horizontal,
    Vertical,
    WrapText,
}

/// What a path names in a style.
#[derive(Clone, Copy)]
pub(crate) enum StylePath {
    Font(FontPath),
    Fill(FillPath),
    NumberFormat,
    /// The alignment as a whole.
    Alignment,
    AlignmentPart(AlignmentPath),
}

impl StylePath {
    pub(crate) const ALL: [StylePath; 15] = [
        StylePath::Font(FontPath::Bold),
        StylePath::Font(FontPath::Italic),
        StylePath::Font(FontPath::Underline),
        StylePath::Font(FontPath::Strike),
        StylePath::Font(FontPath::Color),
        StylePath::Font(FontPath::Size),
        StylePath::Font(FontPath::SizeDelta),
        StylePath::Fill(FillPath::Color),
        StylePath::Fill(FillPath::Background),
        StylePath::Fill(FillPath::Foreground),
        StylePath::NumberFormat,
        StylePath::Alignment,
        StylePath::AlignmentPart(AlignmentPath::Horizontal),
        StylePath::AlignmentPart(AlignmentPath::Vertical),
        StylePath::AlignmentPart(AlignmentPath::WrapText),
    ];

    pub(crate) fn name(self) -> &'static str
        ensures { result.now ≡ path_name self }
    {
        match self {
            StylePath::Font(FontPath::Bold) => "font.b",
            StylePath::Font(FontPath::Italic) => "font.i",
            StylePath::Font(FontPath::Underline) => "font.u",
            StylePath::Font(FontPath::Strike) => "font.strike",
            StylePath::Font(FontPath::Color) => "font.color",
            StylePath::Font(FontPath::Size) => "font.size",
            StylePath::Font(FontPath::SizeDelta) => "font.size_delta",
            StylePath::Fill(FillPath::Color) => "fill.color",
            StylePath::Fill(FillPath::Background) => "fill.bg_color",
            StylePath::Fill(FillPath::Foreground) => "fill.fg_color",
            StylePath::NumberFormat => "num_fmt",
            StylePath::Alignment => "alignment",
            StylePath::AlignmentPart(AlignmentPath::Horizontal) => "alignment.horizontal",
            StylePath::AlignmentPart(AlignmentPath::Vertical) => "alignment.vertical",
            StylePath::AlignmentPart(AlignmentPath::WrapText) => "alignment.wrap_text",
        }
    }

    /// The path of that name, spelled exactly.
    pub(crate) fn by_name(text: &str) -> Option<StylePath>
        ensures { result ≡ entry_named path_name all_paths text.now }
    {
        StylePath::ALL
            .iter()
            .copied()
            .find(|path| path.name() == text)
    }
}
