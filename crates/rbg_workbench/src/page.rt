//! The page on which a game is played by hand: its head, its style and its body.

/// What stands before the style of boards.
pub(crate) const HEAD: &[u8] = b"<!DOCTYPE html>
<html lang='en'>
<head>
<meta charset='utf-8'>
<meta name='viewport' content='width=device-width, initial-scale=1'>
<title>A game</title>
<link rel='icon' href='data:,'>
<style>
";

/// What stands after it, up to the script of boards.
pub(crate) const BODY: &[u8] = b"
* { box-sizing: border-box; }
body { margin: 0 auto; padding: .8rem 1rem; max-width: 76rem; background: var(--page); color: var(--ink); font: 1rem/1.4 system-ui, sans-serif; }
h1 { font-size: 1.2rem; margin: 0 0 .4rem; }
main { display: grid; grid-template-columns: minmax(0, 3fr) minmax(17rem, 2fr); gap: 1.5rem; }
#stage { overflow: auto; max-height: 84vh; padding: 2px; }
#stage > svg { margin: 0 auto; }
#turn-line { display: flex; gap: .4rem; align-items: center; margin: 0 0 .4rem; min-height: 2rem; font-weight: 600; }
#turn-sign svg { width: 1.5rem; display: block; }
#choices { display: flex; flex-wrap: wrap; gap: .4rem; min-height: 2.6rem; margin-bottom: .4rem; }
.choice span { display: flex; align-items: center; gap: .3rem; }
.picture { width: 2rem; height: 2rem; display: inline-block; }
.bar { display: flex; flex-wrap: wrap; gap: .4rem; margin: .4rem 0; align-items: center; }
button, select, input { font: inherit; color: inherit; background: var(--page); border: 1px solid var(--soft); border-radius: .3rem; padding: .25rem .6rem; min-height: 2.1rem; }
button:hover:not(:disabled) { border-color: var(--can); }
button:disabled { opacity: .45; }
:focus-visible { outline: 2px solid var(--mark); outline-offset: 1px; }
#patience { width: 5.5rem; }
#sides { display: flex; flex-wrap: wrap; gap: .3rem .9rem; }
ul, ol { list-style: none; margin: 0; padding: 0; }
#values { display: flex; flex-wrap: wrap; gap: 0 1rem; color: var(--soft); font-variant-numeric: tabular-nums; }
#moves { max-height: 16rem; overflow: auto; border: 1px solid var(--rule); margin: .5rem 0; }
#moves li { padding: .1rem .5rem; cursor: pointer; overflow-wrap: anywhere; }
#moves .now { background: var(--now); color: #111; }
#moves .later { color: var(--soft); }
#spot { color: var(--soft); }
#problem, #lost { color: var(--mark); margin: .3rem 0; min-height: 1.4rem; overflow-wrap: anywhere; }
#problem[data-kind=quiet] { color: var(--soft); }
#stale { margin: 0 0 .3rem; padding: .1rem .5rem; border-left: 4px solid var(--mark); color: var(--mark); overflow-wrap: anywhere; }
#stale:empty { display: none; }
#notes div { white-space: pre-wrap; overflow-wrap: anywhere; }
#notes .excerpt { white-space: pre; overflow: auto hidden; }
#notes { font: .85rem/1.35 ui-monospace, monospace; margin: .4rem 0; padding: .5rem; border-left: 4px solid var(--rule); }
#notes[data-kind=refused] { border-color: var(--mark); }
#notes[data-kind=warned] { border-color: var(--now); }
#notes[data-kind=quiet] { display: none; }
[data-refused=yes] #stage { opacity: .6; }
.file { position: relative; display: inline-block; border: 1px solid var(--soft); border-radius: .3rem; padding: .25rem .6rem; cursor: pointer; }
.file input { position: absolute; inset: 0; opacity: 0; cursor: pointer; }
.file:focus-within { outline: 2px solid var(--mark); }
pre { overflow: auto; font-size: .75rem; }
details { color: var(--soft); }
@media (max-width: 46rem) { main { grid-template-columns: minmax(0, 1fr); gap: .5rem; } body { padding: .5rem; } #stage { max-height: none; } }
</style>
</head>
<body data-ready='no'>
<h1 id='title'>A game</h1>
<main>
<div>
<div id='stage'></div>
<div class='bar'><button id='farther' disabled title='smaller (-)' aria-label='smaller'>-</button><button id='nearer' disabled title='larger (+)' aria-label='larger'>+</button><span id='spot' role='status'></span></div>
</div>
<div>
<p id='stale' role='status'></p>
<p id='turn-line'><span id='turn-sign'></span><span id='turn' role='status' aria-live='polite'></span></p>
<div id='choices'></div>
<div class='bar'>
<button id='first' disabled title='from the beginning (Home)'>&laquo; Beginning</button>
<button id='undo' disabled title='undo (u, arrow left)'>&lsaquo; Undo</button>
<button id='redo' disabled title='redo (r, arrow right)'>Redo &rsaquo;</button>
<button id='go-on' hidden title='the programs go on (g)'>Go on</button>
<button id='hint' disabled title='a hint (h)'>Hint</button>
</div>
<div class='bar'><div id='sides'></div><label>playouts for <input id='patience' type='number' min='50' max='60000' step='50' value='500'> ms</label></div>
<ul id='values'></ul>
<ol id='moves' aria-label='moves'></ol>
<p id='problem' role='status'></p>
<p id='lost' hidden>The program has ended: nothing answers.</p>
<div id='notes' data-kind='quiet'></div>
<div class='bar'><button id='save' disabled>Save the record</button><button id='save-position' disabled>Save the position</button><label class='file'>Open a record<input id='file' disabled type='file' aria-label='Open a record or a list of moves'></label></div>
<details><summary>Clicks and keys</summary><p>A click on a square framed blue chooses it, and marks what can come next. The second click makes the move, and one on the first square takes it back. A move of one square is made at once. Undo and Redo lead to where a person is to move; where programs wait, they go on by the button Go on.</p><p>Tab or b leads to the board. There the arrows go from square to square, and Enter chooses as a click does. Elsewhere the arrows undo and redo. u: undo, r: redo, g: programs that wait go on, h: a hint, Home: from the beginning, End: the last move, Escape: takes a choice back, + and -: the size.</p></details>
<details><summary>The rules as they are written</summary><pre id='rules'></pre></details>
</div>
</main>
<script>
";

/// What stands after the scripts.
pub(crate) const END: &[u8] = b"</script>
</body>
</html>
";
