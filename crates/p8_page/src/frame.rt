// What stands round style, blocks and script: the elements of a page that the script fills.
/// Before the style. The policy lets the page ask nothing of a network.
pub const OPENING: &[u8] = br##"<!DOCTYPE html>
<html lang="en">
<head>
<meta charset="utf-8">
<meta http-equiv="Content-Security-Policy" content="default-src 'none'; script-src 'unsafe-inline'; style-src 'unsafe-inline'">
<meta name="viewport" content="width=device-width, initial-scale=1">
<title>A run of the Propeller</title>
<style>
"##;

/// Between the style and the blocks: the buttons and the places.
pub const BODY: &[u8] = br##"</style>
</head>
<body>
<h1 id="file"></h1>
<noscript>This page needs JavaScript. It asks nothing of a network.</noscript>
<nav aria-label="Steps">
<button type="button" id="back" title="Left arrow">&#9664; turn</button>
<button type="button" id="next" title="Right arrow">turn &#9654;</button>
<button type="button" id="cog-back" title="Up arrow">&#9664; of this cog</button>
<button type="button" id="cog-next" title="Down arrow">of this cog &#9654;</button>
<label>list <select id="one-cog">
<option value="">all cogs</option>
<option value="0">cog 0</option>
<option value="1">cog 1</option>
<option value="2">cog 2</option>
<option value="3">cog 3</option>
<option value="4">cog 4</option>
<option value="5">cog 5</option>
<option value="6">cog 6</option>
<option value="7">cog 7</option>
</select></label>
<button type="button" id="nearer" title="+">nearer</button>
<button type="button" id="farther" title="-">farther</button>
<button type="button" id="whole" title="0">whole run</button>
</nav>
<section aria-label="Cogs and pins over clocks"><svg id="chart" role="group"></svg></section>
<p id="here" aria-live="polite"></p>
<div id="panes">
<section aria-label="Turns"><h2>Turns</h2><div id="list" tabindex="0"><div id="rows"></div></div></section>
<section aria-label="Source"><h2 id="source-name">Source</h2><div id="source" tabindex="0"></div></section>
<section aria-label="Hub"><h2>The hub</h2><svg id="hub" viewBox="0 0 120 120" role="img" aria-labelledby="hub-words"></svg><p id="hub-words"></p>
<div id="held" tabindex="0"><table><tbody id="values"></tbody></table></div></section>
</div>
<section aria-label="End"><h2>At the end</h2><ul id="ends"></ul></section>
"##;

/// Before the script.
pub const RUNNING: &[u8] = br##"<script>
"##;

/// Behind the script.
pub const CLOSING: &[u8] = br##"</script>
</body>
</html>
"##;
