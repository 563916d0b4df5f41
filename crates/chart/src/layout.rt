//! Where the parts of a chart are, in units of the drawing, and how they look (our choice).

/// The width of a chart.
pub const WIDTH: u64 = 1180;

/// The top of the first row.
pub const TOP: u64 = 76;

/// The height of a row.
pub const ROW: u64 = 24;

/// From the top of a row to the line of its packet, and to the foot of that packet's words.
pub const SHAFT: u64 = 18;

pub const LABEL: u64 = 10;

/// From the top of a row to the foot of its other words.
pub const FOOT: u64 = 15;

/// The left end of slots and numbers of turns.
pub const TIMES: u64 = 8;

/// The left end of bands, and their width.
pub const BAND: u64 = 104;

pub const BAND_WIDTH: u64 = 1068;

/// The life lines of A and B, and the middle between them.
pub const LIFE_A: u64 = 420;

pub const LIFE_B: u64 = 860;

pub const MIDDLE: u64 = 640;

/// The right end of A's notes, and the left end of B's.
pub const NOTES_A: u64 = 408;

pub const NOTES_B: u64 = 872;

/// The top of the life lines, and the foot of the letters above them.
pub const LIFE_TOP: u64 = 66;

pub const NAMES: u64 = 58;

/// The line of the legend's packets, and the foot of its words.
pub const LEGEND: u64 = 20;

pub const LEGEND_FOOT: u64 = 24;

/// The top of the legend's band, and its width.
pub const LEGEND_BAND: u64 = 10;

pub const SAMPLE: u64 = 40;

/// The height of a band in the legend.
pub const LEGEND_HEIGHT: u64 = 20;

/// The space under the last row.
pub const MARGIN: u64 = 16;

/// How many octets of a host are shown.
pub const SHOWN: usize = 10;

/// How the classes of the elements look.
pub const STYLE: &str = "svg{background:#fff}
text{font:11px 'DejaVu Sans Mono',monospace;fill:#24292f}
.side{font-size:16px;font-weight:bold}
.packet,.side{text-anchor:middle}
.note-a{text-anchor:end}
.slot,.idle{fill:#57606a}
.idle{font-style:italic}
path{fill:none;stroke-width:1.5}
.life{stroke:#8c959f}
.good{stroke:#1a7f37}
.missed{stroke:#57606a}
.broken{stroke:#cf222e}
.forged{stroke:#8250df}
.lost,.damaged{stroke-dasharray:20 5}
.event{fill:#54aeff;fill-opacity:0.15}
";
