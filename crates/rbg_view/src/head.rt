//! The head of each page, with its style.

/// The head of each page, with its style.
pub(crate) const HEAD: &[u8] = b"<!DOCTYPE html>
<html lang='en'>
<head>
<meta charset='utf-8'>
<meta name='viewport' content='width=device-width, initial-scale=1'>
<title>A match</title>
<style>
:root { color-scheme: light dark; --page: #fff; --ink: #222; --soft: #666; --cell: #eadfc8; --line: #9b8d70; --mark: #d33; --hint: #f2c894; }
@media (prefers-color-scheme: dark) {
  :root { --page: #16181c; --ink: #ddd; --soft: #a0a0a0; --cell: #4a463d; --line: #77705f; --mark: #ff7b6b; --hint: #7a5a36; }
}
body { margin: 0 auto; padding: .8rem 1rem; max-width: 76rem; background: var(--page); color: var(--ink); font: 1rem/1.4 system-ui, sans-serif; }
#board { float: left; width: 100%; max-width: 36rem; max-height: 85vh; margin: 0 1.5rem 1rem 0; overflow: visible; }
#cell { fill: var(--fill, var(--cell)); stroke: var(--line); stroke-width: .2; }
#board text { font-size: 4px; text-anchor: middle; dominant-baseline: central; fill: #000; }
#board .label text { fill: var(--ink); }
#board circle, #pieces i { fill: hsl(calc((var(--p) - 1) * 222.5) 65% 62%); background: hsl(calc((var(--p) - 1) * 222.5) 65% 62%); }
#board [data-piece^=w] circle, #pieces [data-piece^=w] i { fill: hsl(calc((var(--p) - 1) * 222.5) 45% 88%); background: hsl(calc((var(--p) - 1) * 222.5) 45% 88%); }
#board [data-piece^=b] circle, #pieces [data-piece^=b] i { fill: hsl(calc((var(--p) - 1) * 222.5) 40% 24%); background: hsl(calc((var(--p) - 1) * 222.5) 40% 24%); }
#board [data-piece^=b] text { fill: #fff; }
#board [data-piece=e] circle, #board [data-piece=empty] circle, #board [data-piece=e] text, #board [data-piece=empty] text, #pieces [data-piece=e] i, #pieces [data-piece=empty] i { display: none; }
#board circle { stroke: #0006; stroke-width: .3; }
#board .marked { --fill: var(--hint); }
#board .marked circle { stroke: var(--mark); stroke-width: .8; }
#board.square g { transform: translate(calc(var(--x) * 10px + 5px), calc(var(--y) * 10px + 5px)); }
#board.hexagon g { transform: translate(calc((2 * var(--x) - var(--l) + var(--w)) * 5px + 5px), calc(var(--y) * 8.66px + 5.77px)); }
#board.graph g { transform: translate(calc(var(--w) * 5px), calc(var(--w) * 5px)) rotate(calc(var(--x) * 360deg / var(--w))) translate(0, calc(var(--w) * -4px)) rotate(calc(var(--x) * -360deg / var(--w))) scale(2); }
@media (scripting: enabled) { #board { display: none; } }
ul { list-style: none; margin: 0; padding: 0; }
#variables, #values { display: inline-block; vertical-align: top; margin: 0 1rem 1rem 0; }
#values { text-align: right; font-variant-numeric: tabular-nums; }
#players, #pieces { color: var(--soft); }
#players li, #pieces li { display: inline-block; margin-right: .8rem; }
h1 { font-size: 1.2rem; margin: 0 0 .5rem; }
main { display: grid; grid-template-columns: minmax(0, 3fr) minmax(17rem, 2fr); gap: 1.5rem; }
#stage { overflow: auto; max-height: 84vh; padding: 2px; }
#stage > svg { margin: 0 auto; }
#zoom { display: flex; gap: .4rem; margin: .4rem 0; }
#players svg.board, #pieces svg.board { display: inline-block; width: 1.4em; height: 1.4em; margin: 0 .2em 0 0; vertical-align: -.35em; }
#pieces i { display: inline-block; width: .9em; height: .9em; border-radius: 50%; margin-right: .3em; vertical-align: -.1em; }
#controls { display: flex; gap: .4rem; align-items: center; margin: .5rem 0; }
#controls input { flex: 1; min-width: 6rem; }
button { font: inherit; min-width: 2.4rem; }
#moves { max-height: 18rem; overflow: auto; margin: .5rem 0; padding: 0; list-style: none; border: 1px solid var(--soft); }
#moves li { padding: .1rem .5rem; cursor: pointer; }
#moves li span { float: right; color: var(--soft); }
#moves .now { background: var(--line); color: #fff; }
#moves .now span { color: #fff; }
#now { font-weight: 600; }
@media (max-width: 46rem) { main { grid-template-columns: minmax(0, 1fr); gap: .5rem; } body { padding: .5rem; } #stage { max-height: none; } }
details { clear: both; padding-top: 1rem; color: var(--soft); }
pre { overflow: auto; font-size: .75rem; }
</style>
</head>
<body>
";
