//! The texts of a report.

/// The begin of the file, up to its style.
pub(crate) const BEGIN: &str = "<!doctype html>\n<html lang=\"en\"><head><meta charset=\"utf-8\">\
<meta name=\"viewport\" content=\"width=device-width, initial-scale=1\">\
<title>Disturbance records</title>\n<style>\n";

/// How the report looks on a screen and on paper. Pages for a browser are not printed.
pub(crate) const STYLE: &str = "\
:root{color-scheme:light dark}
body{font:15px/1.45 system-ui,sans-serif;margin:1.5em auto;max-width:1240px;padding:0 1em}
h1{font-size:1.5em}h2{font-size:1.2em;margin-top:2em}h3{font-size:1em}
table{border-collapse:collapse;font-size:.85em;margin:.8em 0;font-variant-numeric:tabular-nums}
th,td{border-bottom:1px solid #8888;padding:.2em .6em;text-align:left;vertical-align:top}
pre{overflow-x:auto;font-size:.85em;border-left:3px solid #8888;padding-left:.8em}
body>table{display:block;overflow-x:auto}
section>svg{max-width:100%;height:auto}
iframe{width:100%;height:80vh;border:1px solid #8888}
@page{size:A4 landscape;margin:12mm}
@media print{:root{color-scheme:light}body{margin:0;max-width:none;padding:0;font-size:9pt}
body>table{display:table;width:100%;font-size:7pt}pre{white-space:pre-wrap;font-size:7.5pt}
h2,h3{break-after:avoid}tr,pre,section{break-inside:avoid}details{display:none}
section>svg{max-height:165mm}td{overflow-wrap:anywhere}}
";

/// The begin of a record's page, up to its name.
pub(crate) const FRAME: &str = "\n<details><summary>The record to zoom and measure in</summary>\
<iframe loading=\"lazy\" title=\"";

/// The begin of the table of repairs.
pub(crate) const COLUMNS: &str = "<table><thead><tr><th scope=\"col\">record</th>\
<th scope=\"col\">what</th></tr></thead><tbody>\n";

/// The end of the file.
pub(crate) const END: &str = "</body></html>\n";
