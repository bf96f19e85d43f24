//! The tail of each page, with its scripts.

/// What stands before the style that draws boards.
pub(crate) const STYLES: &[u8] = b"</pre></details>
<style>
";

/// What stands before the script that draws boards.
pub(crate) const SCRIPTS: &[u8] = b"</style>
<script>
";

/// The script of a page. It holds no byte that begins or ends a string of this language.
pub(crate) const END: &[u8] = b"(() => {
  const { LINE } = RbgBoard;
  const get = id => document.getElementById(id);
  const game = RbgBoard.read(get('game').textContent);
  const drawing = RbgBoard.draw(game);
  document.title = game.title;
  const heading = document.createElement('h1');
  heading.textContent = game.title;
  document.body.prepend(heading);
  const main = document.createElement('main');
  main.innerHTML = '<div><div id=stage></div><div id=zoom><button title=smaller aria-label=smaller>-</button><button title=larger aria-label=larger>+</button></div></div><div id=side></div>';
  get('board').replaceWith(main);
  get('stage').append(drawing.svg);
  get('side').append(...['play', 'variables', 'values', 'players', 'pieces'].map(get));
  const [start, ...lines] = get('record').textContent.trim().split(LINE);
  const name = player => player > 0 ? game.players[player - 1] : 'the keeper';

  /* An item is a letter, or a number with a point. The first line has all items of the start, the later ones those that
     have changed, each with its index. */
  const number = item => item.endsWith('.') ? parseInt(item) : item.charCodeAt(0) - 97;
  const items = text => (text.match(/[a-z]|[0-9]+[.]/g) || []).map(number);
  const changed = (before, text) => {
    const after = before.slice();
    for (const [, item, at] of text.matchAll(/ ([a-z]|[0-9]+[.])([0-9]+)/g)) after[at] = number(item);
    return after;
  };

  /* A step is the start or a player's move, with the keeper's moves behind it. */
  let [board, values] = start.split('|').map(items);
  const steps = [];
  for (const line of lines) {
    const [text, vertices, variables, player] = line.split('|');
    if (vertices === undefined) continue;
    const before = board;
    board = changed(board, vertices);
    values = changed(values, variables);
    const place = { board, values, player: Number(player) };
    const numbers = text.split(' ').map(Number);
    const moment = lines[0] === 'rbg 2' ? numbers.shift() : undefined;
    const mover = numbers.shift();
    if (steps.length === 0) steps.push({ mover: 0, changed: [], own: board, pairs: [], ...place });
    else if (mover > 0) steps.push({ mover, moment, changed: RbgBoard.changes(game, before, numbers), own: board, pairs: numbers, ...place });
    else Object.assign(steps[steps.length - 1], place);
  }
  for (const step of steps) step.settled = RbgBoard.differences(step.own, step.board);
  const began = lines[0] === 'rbg 2' ? Number(lines.find(line => line.startsWith('start ')).split(/[ |]/)[2]) : 0;
  const [how, ...numbers] = lines[lines.length - 1].split(' ').slice(lines[0] === 'rbg 2' ? 1 : 0);
  const outcome = {
    'E0': () => 'finished: ' + numbers.map((score, at) => game.players[at] + ' ' + score).join(', '),
    'E1': () => 'ended: the time of ' + name(numbers[0]) + ' was over',
    'E2': () => 'ended: ' + name(numbers[0]) + ' had too many messages refused',
    'E3': () => 'ended: the stream of ' + name(numbers[0]) + ' ended',
    'E4': () => 'ended: a question was above the limits',
    '-': () => 'still in play',
  }[how]();

  for (const step of steps) drawing.learn(step.mover, step.changed);

  const seconds = step => step.moment === undefined ? '' : ((step.moment - began) / 1000).toFixed(1) + ' s';
  const told = (step, at) => at === 0 ? 'start' : at + ' ' + name(step.mover) + ': ' + RbgBoard.spellStep(game, drawing, step);

  get('play').innerHTML = '<div id=controls><button title=first>&laquo;</button><button title=back>&lsaquo;</button><input type=range min=0 aria-label=move><button title=on>&rsaquo;</button><button title=last>&raquo;</button></div><p id=now></p><ol id=moves></ol>';
  const slider = document.querySelector('#controls input');
  slider.max = steps.length - 1;
  steps.forEach((step, at) => {
    const item = document.createElement('li');
    item.textContent = told(step, at);
    item.append(Object.assign(document.createElement('span'), { textContent: seconds(step) }));
    item.onclick = () => go(at);
    get('moves').append(item);
  });

  let now = 0;
  const go = to => {
    get('moves').children[now].className = '';
    now = Math.max(0, Math.min(steps.length - 1, to));
    const step = steps[now];
    slider.value = now;
    drawing.show(step.board, { changed: step.changed.map(change => change.vertex) });
    Array.from(get('values').children).forEach((item, at) => { item.textContent = step.values[at]; });
    const last = now === steps.length - 1;
    get('now').textContent = last ? outcome : name(step.player) + ' is to move';
    const item = get('moves').children[now];
    item.className = 'now';
    get('moves').scrollTop = item.offsetTop - get('moves').offsetTop - get('moves').clientHeight / 2;
    document.body.dataset.at = now;
    if (location.hash !== '#' + now) history.replaceState(null, '', '#' + now);
  };
  let zoom = 1;
  const zoomBy = factor => {
    zoom = Math.min(8, Math.max(0.4, zoom * factor));
    drawing.svg.style.width = 'min(' + (100 * zoom).toFixed(0) + '%, ' + (78 * zoom * drawing.width / drawing.height).toFixed(1) + 'vh)';
  };
  const buttons = document.querySelectorAll('#controls button');
  buttons[0].onclick = () => go(0);
  buttons[1].onclick = () => go(now - 1);
  buttons[2].onclick = () => go(now + 1);
  buttons[3].onclick = () => go(steps.length - 1);
  const [smaller, larger] = document.querySelectorAll('#zoom button');
  smaller.onclick = () => zoomBy(0.8);
  larger.onclick = () => zoomBy(1.25);
  slider.oninput = () => go(Number(slider.value));
  document.onkeydown = event => {
    const to = { ArrowLeft: now - 1, ArrowRight: now + 1, Home: 0, End: steps.length - 1 }[event.key];
    if (to !== undefined) { event.preventDefault(); go(to); }
  };
  const met = new Set(steps.flatMap(step => step.board));
  Array.from(get('pieces').children).forEach((item, piece) => {
    if (drawing.looks[piece].hidden || !met.has(piece)) item.remove(); else item.prepend(RbgBoard.pictureOf(drawing.looks[piece]));
  });
  Array.from(get('players').children).forEach((item, index) => {
    const look = drawing.looks.find(one => one.owner === index + 1);
    if (look) item.prepend(RbgBoard.pictureOf({ ...look, hidden: false, shape: 'disc', sign: '' }));
  });
  const asked = location.hash.slice(1);
  const fromHash = text => /^[0-9]+$/.test(text) ? Number(text) : steps.length - 1;
  window.onhashchange = () => go(fromHash(location.hash.slice(1)));
  zoomBy(1);
  go(fromHash(asked));
})();
</script>
</body>
</html>
";
