//! The style of a page, `page/page.css`, written by `page/carry.py`.

/// The style of a page, `page/page.css`.
pub fn style() -> &'static str {
    r##":root { color-scheme: light dark; --page: #ffffff; --text: #1c1f23; --faint: #55595f; --edge: #c4c8cc; }
@media (prefers-color-scheme: dark) { :root { --page: #14171c; --text: #e8eaed; --faint: #a9b0b8; --edge: #3a414b; } }
body { margin: 0; background: var(--page); color: var(--text); font: 13px sans-serif; }
header { padding: 8px 12px; border-bottom: 1px solid var(--edge); }
h1 { font-size: 16px; margin: 0 0 2px; }
p { margin: 2px 0; color: var(--faint); }
button { font: inherit; }
main { display: grid; grid-template-columns: minmax(0, 1fr) auto; }
main > div { min-width: 0; overflow: hidden; }
aside { max-height: 92vh; overflow: auto; padding: 0 8px; border-left: 1px solid var(--edge); }
canvas { display: block; width: 100%; touch-action: none; }
canvas:focus { outline: 2px solid #096ac2; }
table { border-collapse: collapse; white-space: nowrap; }
td, th { padding: 1px 5px; text-align: right; font-variant-numeric: tabular-nums; }
td:nth-child(2), th:nth-child(2) { text-align: left; max-width: 17em; overflow: hidden; text-overflow: ellipsis; }
@media (max-width: 900px) { main { grid-template-columns: minmax(0, 1fr); } aside { max-height: none; border: 0; } }
"##
}
