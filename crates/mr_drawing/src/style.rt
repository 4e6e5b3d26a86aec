//! The colours of a picture, light and dark. Letters and numbers say what they say too.

/// What each picture begins with.
pub(crate) const START: &str = "<svg xmlns='http://www.w3.org/2000/svg' role='img'";

/// The classes of the elements. It stands between the beginning of a picture and its first element.
pub(crate) const STYLE: &str = "<style>
svg{--ground:#ffffff;--ink:#1f2328;--faint:#59636e;--line:#57606a;--bar:#ddf4ff;--edge:#0969da;--bad:#cf222e;--blamed:#ffd7d5;--old:#fff1c9;--first:#fbe0c3;--second:#d9f2d0;--new:#c9ead3}
@media (prefers-color-scheme:dark){svg{--ground:#0d1117;--ink:#e6edf3;--faint:#9198a1;--line:#8c959f;--bar:#12304f;--edge:#58a6ff;--bad:#ff7b72;--blamed:#5d1a1d;--old:#3a3216;--first:#4a2f17;--second:#1e3a22;--new:#164028}}
text{font:11px 'DejaVu Sans Mono',Menlo,Consolas,monospace;fill:var(--ink)}
.ground,.gap{fill:var(--ground)}
.plain{font-size:14px}
.faint{font-size:13px;fill:var(--faint)}
.number{fill:var(--faint);text-anchor:middle}
.old-only{fill:var(--old)}
.both-read-old{fill:var(--first)}
.both-read-new{fill:var(--second)}
.new-only{fill:var(--new)}
.mark{font-weight:bold}
.bar{fill:var(--bar);stroke:var(--edge)}
.blamed{fill:var(--blamed);stroke:var(--bad);stroke-width:2}
.said,.cross{text-anchor:middle;stroke:var(--ground);stroke-width:10;stroke-linejoin:round;paint-order:stroke}
.cross{font-weight:bold}
.bad{fill:var(--bad);font-weight:bold}
.node{stroke:var(--faint)}
.leg,.back{stroke:var(--line);stroke-width:1.5}
.back{stroke:var(--edge)}
.again{stroke-dasharray:6 3}
.lost{stroke-dasharray:2 7}
rect,line,text{pointer-events:none}
.event{fill:transparent;pointer-events:all}
</style>
";

/// What colours, letters and lines mean.
pub(crate) const LEGEND: &str =
    "O old-only, A both-read-old, B both-read-new, N new-only. Dashed: it came again. Broken, with an x: it was lost.";
