//! The style of a board that is drawn.

/// The style of a board, in light and dark.
pub const BOARD_STYLE: &[u8] =
    b":root { color-scheme: light dark; --page: #fff; --ink: #222; --soft: #666; --rule: #ccc; --light: #f0e2c4; --dark: #d3b083; --line: #84714c; --mark: #c8341f; --ring: #a82a17; --can: #1a5fb4; --now: #f6c94f; --changed: #f2a65a; }
@media (prefers-color-scheme: dark) {
  :root { --page: #16181c; --ink: #e4e4e4; --soft: #a0a0a0; --rule: #444; --light: #8d7d60; --dark: #6b5a40; --line: #2e2719; --mark: #ff8a75; --ring: #ffe1da; --can: #d6eaff; --now: #b98d12; --changed: #a8632a; }
}
.board { display: block; width: 100%; overflow: visible; user-select: none; touch-action: manipulation; }
.board:focus { outline: none; }
.board .cell { fill: var(--light); stroke: var(--line); stroke-width: .2; }
.board .dark { fill: var(--dark); }
.board .changed { fill: var(--changed); }
.board .chosen { fill: var(--now); }
.board .edges { stroke: var(--line); stroke-width: .35; fill: none; }
@media (prefers-color-scheme: dark) { .board .edges { stroke: #8d7d60; } }
.board .frame { fill: none; }
.board .can { stroke: var(--can); stroke-width: calc(var(--thin) * .6px); }
.board .hint { stroke: var(--ring); stroke-width: calc(var(--thin) * 1px); }
.board .spot { stroke: var(--ring); stroke-width: calc(var(--thin) * 1.1px); display: none; }
.board:focus-visible .spot { display: inline; }
.board .dot { fill: var(--can); stroke: #fff; stroke-width: .2; }
.board .body { stroke: #0009; stroke-width: .3; }
.board .turned { stroke: var(--mark); stroke-width: .9; }
.board .sign, .board .sign tspan { text-anchor: middle; dominant-baseline: central; }
.board .sign { font-family: 'DejaVu Sans', 'Segoe UI Symbol', 'Noto Sans Symbols 2', system-ui, sans-serif; }
.board .name { font-size: 2.6px; text-anchor: middle; dominant-baseline: central; fill: var(--soft); stroke: var(--page); stroke-width: .5; paint-order: stroke; font-family: system-ui, sans-serif; }
";
