//! The script of the page on which a game is played by hand: what is asked of the server, and what a click does.

/// The script. It needs `RbgBoard` and `RbgMoves`, and holds no byte that begins or ends a string of this language.
pub(crate) const PLAY_SCRIPT: &[u8] = b"'use strict';
const RbgPlay = (() => {
  const { LINE } = RbgBoard;
  const { reader, standingOf, waysFrom, isDone, spellSettings } = RbgMoves;
  const get = id => document.getElementById(id);

  /* What is known of the server and of the game. */
  let stamp = 0;
  let version = -1;
  let game = null;
  let drawing = null;
  let shownNotes = '';

  /* The line of play: steps[k] is what stands after k moves. Only the present step has its legal moves. Steps after it that are old
     were made by other rules, and may not be legal now. `meant` is where one would stand if they all were. */
  let steps = [];
  let at = 0;
  let meant = 0;
  let legal = [];
  let isCut = false;

  let chosen = [];
  let next = new Set();
  let focused = 0;
  let pointed = -1;
  let thinking = 0;
  let hinted = [];
  let isBusy = false;
  let isLooking = false;
  /* Whether programs wait, since one has gone back. */
  let isPaused = false;

  /* Says what is wrong, or something else. */
  const say = (text, kind = 'fault') => { get('problem').textContent = text; get('problem').dataset.kind = kind; };

  /* Asks lines, and gives the lines of the answers. The server says no where another page has asked since. */
  const post = async (path, body) => {
    const answer = await fetch(path, { method: 'POST', body });
    return { status: answer.status, text: await answer.text() };
  };

  const ask = async questions => {
    for (let again = 0; again < 3; again += 1) {
      const { status, text } = await post('/ask?after=' + stamp, questions.join(LINE) + LINE);
      if (status === 200) { stamp += 1; return text.split(LINE); }
      if (status !== 409) throw new Error(text);
      await look();
      await follow();
    }
    throw new Error('another page plays');
  };

  /* Brings the server to where this page stands. */
  const follow = async () => {
    const state = await stateOf();
    stamp = state.stamp;
    const questions = state.made > 0 ? ['back ' + state.made] : [];
    questions.push(...steps.slice(1, at + 1).map(makeLine));
    if (questions.length > 0) { await post('/ask?after=' + stamp, questions.join(LINE) + LINE); stamp += 1; }
  };

  const stateOf = async () => {
    const text = await (await fetch('/state')).text();
    const [head, notes] = text.split(LINE + 'notes' + LINE);
    const state = { notes };
    for (const line of head.split(LINE)) { const [word, value] = line.split(' '); state[word] = Number(value); }
    return state;
  };

  const STAND = ['board', 'values'];

  const readStep = (from, pairs, mover, lines) => ({
    pairs, mover, standing: standingOf(lines.line()), board: lines.numbers(), values: lines.numbers(),
  });

  /* What a move changes by itself, and what the keeper changes after it. */
  const tell = (before, step) => {
    step.changed = RbgBoard.changes(game, before.board, step.pairs);
    const own = before.board.slice();
    for (const { vertex, is } of step.changed) own[vertex] = is;
    step.settled = RbgBoard.differences(own, step.board);
    step.told = told(step.changed, step.pairs);
    return step;
  };

  const told = (changed, pairs) => RbgBoard.spell(game, drawing, changed, pairs);

  /* The squares of pairs, those of variables that are set with their names. */
  const spellPairs = pairs => {
    const parts = [];
    for (let one = 0; one + 1 < pairs.length; one += 2) {
      const action = game.actions[pairs[one + 1] - 1];
      const square = drawing.layout.names[pairs[one]];
      if (action && action.kind === 'v') parts.push(game.variables[action.of] + ' at ' + square);
      else if (action && action.kind === 's' && pairs.length > 2) parts.push('');
      else parts.push(square);
    }
    return parts.filter(part => part !== '').join(', ');
  };

  /* Whether a move is the only one that changes no piece. */
  const isPass = move => move.changed.length === 0 && legal.every(other => other === move || other.changed.length > 0);

  const findClicks = () => RbgMoves.findClicks(drawing, legal, steps[at].standing.player);

  const prepare = (moves, board) => {
    legal = moves.map(pairs => ({ pairs, changed: RbgBoard.changes(game, board, pairs) }));
    drawing.learn(steps[at].standing.player, legal.flatMap(move => move.changed));
    findClicks();
  };

  /* Asks for the values after those moves whose buttons may have to say them. */
  const askValues = async () => {
    const moves = game.variables.length > 0 ? RbgMoves.inNeedOfValues(legal) : [];
    if (moves.length === 0) return;
    const lines = reader(await ask(moves.flatMap(move => [makeLine(move), 'values', 'back'])));
    for (const move of moves) {
      /* (`back` after a move that fails takes another one back) */
      if (lines.line().startsWith('error')) { await follow(); return; }
      move.after = lines.numbers();
      lines.line();
    }
  };

  const makeLine = ({ pairs }) => 'make ' + pairs.join(' ');

  /* The moves that begin with some clicks. */
  const fitting = clicks => legal.filter(move => waysFrom(move, clicks).length > 0);

  /* Shows all. A new drawing comes onto the page once its pieces are there. If a button that the keys have pressed goes, they lead
     to the board. */
  const show = () => {
    const step = steps[at];
    if (!step) return;
    const held = document.querySelector('button:focus-visible');
    const person = isPerson(step.standing.player);
    const fits = fitting(chosen);
    next = new Set(person ? fits.flatMap(move => waysFrom(move, chosen).map(way => way[chosen.length])).filter(vertex => vertex !== undefined) : []);
    const changed = new Set(at > 0 ? [...step.changed, ...step.settled].map(change => change.vertex) : []);
    drawing.show(step.board, { changed: [...changed], chosen, can: [...next], hint: hinted });
    drawing.frame(focused);
    tellSquare(pointed);
    putOnStage();
    showTurn(step);
    showChoices(person ? fits : []);
    showLists(step);
    if (held && (held.hidden || !held.isConnected)) drawing.svg.focus({ preventScroll: true });
    keepMatch();
    document.body.dataset.at = at;
    document.body.dataset.ready = isBusy ? 'no' : 'yes';
  };

  const putOnStage = () => {
    if (drawing.svg.isConnected) return;
    const isFocused = get('stage').contains(document.activeElement);
    get('stage').replaceChildren(drawing.svg);
    if (isFocused) drawing.svg.focus({ preventScroll: true });
  };

  const playerName = player => player > 0 ? game.players[player - 1] : 'the keeper';

  const showTurn = step => {
    const { standing } = step;
    let text = playerName(standing.player) + ' is to move';
    if (standing.scores) {
      const most = Math.max(...standing.scores);
      const best = game.players.filter((_, index) => standing.scores[index] === most);
      const won = game.players.length === 1 ? '' : best.length === 1 ? best[0] + ' has most: ' : 'a draw: ';
      text = 'finished, ' + won + game.players.map((name, index) => name + ' ' + standing.scores[index]).join(', ');
    }
    if (standing.fault) text = { 'error over': 'a question about this place is above the limits of play', 'error keeper': 'the keeper makes 1,000 moves in a row', 'error memory': 'out of memory' }[standing.fault] || standing.fault;
    if (!standing.scores && !standing.fault && chosen.length > 0) text += ': ' + chosen.map(vertex => drawing.layout.names[vertex]).join(', ');
    if (isCut) text += ' (not all moves are listed)';
    const waits = isPaused && standing.player > 0 && !isPerson(standing.player);
    if (waits) text += ', and waits';
    get('go-on').hidden = !waits;
    get('turn').textContent = text;
    get('turn').dataset.player = standing.player;
    const own = get('turn-sign');
    own.replaceChildren();
    const look = drawing.looks.find(one => one.owner === standing.player && !one.hidden);
    if (look && standing.player > 0) own.append(RbgBoard.pictureOf({ ...look, shape: 'disc', sign: '' }));
  };

  const button = (label, act) => {
    const made = document.createElement('button');
    made.type = 'button';
    made.append(label);
    made.onclick = act;
    return made;
  };

  /* Buttons: for moves that have the same squares, and for those that have none. Those that read alike say what they set too, and
     if that is alike their pairs. */
  const showChoices = fits => {
    const box = get('choices');
    box.replaceChildren();
    const done = fits.filter(move => isDone(move, chosen));
    const choices = done.map(move => choice(move, done));
    tellApart(choices, index => ': ' + spellSettings(game.variables, steps[at].values, done[index], done));
    tellApart(choices, index => ' (' + choices[index].dataset.pairs + ')');
    box.append(...choices);
    if (chosen.length > 0) box.append(button('Take back', () => { chosen = []; show(); }));
  };

  /* Appends more to the buttons that read alike. */
  const tellApart = (choices, more) => {
    const labels = choices.map(made => made.textContent);
    const isAlike = label => labels.filter(other => other === label).length > 1;
    choices.forEach((made, index) => { if (isAlike(labels[index]) && more(index) !== ': ') made.append(more(index)); });
  };

  const choice = (move, among) => {
    const differs = move.changed.filter(({ vertex, is }) => among.some(other => { const there = other.changed.find(one => one.vertex === vertex); return !there || there.is !== is; }));
    const label = document.createElement('span');
    if (differs.length > 0 && differs.length < 4) {
      for (const { is } of differs) label.append(RbgBoard.pictureOf(drawing.looks[is]));
      label.append(differs.map(({ is }) => game.pieces[is]).join(' '));
    } else {
      label.append(choiceText(move, among));
    }
    const made = button(label, () => play(move));
    made.className = 'choice';
    made.dataset.pairs = move.pairs.join(' ');
    return made;
  };

  const choiceText = (move, among) => {
    if (among.length === 1 && move.clicks.length > 0) return 'Stop here';
    const settings = spellSettings(game.variables, steps[at].values, move, among);
    if (isPass(move)) return settings === '' ? 'Pass' : 'Pass: ' + settings;
    const isOwn = among.every(other => other === move || spellSettings(game.variables, steps[at].values, other, among) !== settings);
    if (settings !== '' && isOwn && settings.length < 60) return settings;
    const texts = among.map(one => spellPairs(one.pairs));
    const text = spellPairs(move.pairs);
    return texts.filter(one => one === text).length === 1 && text.length < 60 ? text : move.pairs.join(' ');
  };

  const showLists = step => {
    get('values').replaceChildren(...game.variables.map((name, variable) => {
      const item = document.createElement('li');
      item.textContent = name + ' ' + step.values[variable];
      return item;
    }));
    const list = get('moves');
    while (list.children.length > steps.length) list.lastChild.remove();
    steps.forEach((one, index) => {
      let item = list.children[index];
      if (!item) {
        item = document.createElement('li');
        list.append(item);
      }
      one.text = one.text || (index === 0 ? 'the beginning' : index + ' ' + playerName(one.mover) + ': ' + RbgBoard.spellStep(game, drawing, one));
      if (item.textContent !== one.text) item.textContent = one.text;
      item.className = index === at ? 'now' : index > at ? 'later' : '';
      item.onclick = () => goTo(() => index);
    });
    const now = list.children[at];
    if (now) list.scrollTop = now.offsetTop - list.offsetTop - list.clientHeight / 2;
    get('undo').disabled = at === 0;
    get('first').disabled = at === 0;
    get('redo').disabled = at === steps.length - 1;
    get('hint').disabled = legal.length === 0;
    if (location.hash !== '#' + at && (at > 0 || location.hash !== '')) history.replaceState(null, '', '#' + at);
  };

  /* One thing at a time. */
  let queue = Promise.resolve();
  const inTurn = act => {
    queue = queue.then(async () => {
      isBusy = true;
      document.body.dataset.ready = 'no';
      try { await act(); } catch (error) { say('no answer: ' + error.message); }
      isBusy = false;
      show();
      goOn();
    });
    return queue;
  };

  const takeMoves = async lines => {
    const { moves, cut } = lines.moves();
    isCut = cut;
    prepare(moves, steps[at].board);
    await askValues();
  };

  const begin = async () => {
    const lines = reader(await ask(['place', ...STAND, 'moves']));
    const first = { pairs: [], mover: 0, standing: standingOf(lines.line()), board: lines.numbers(), values: lines.numbers(), changed: [], settled: [], told: '' };
    steps = [first, ...steps.slice(1)];
    at = 0;
    chosen = [];
    hinted = [];
    await takeMoves(lines);
  };

  /* Looks at the first moves of the other players, to see whose the pieces are. */
  const getToKnow = async () => {
    let move = legal[0];
    let made = 0;
    for (let player = 1; player < game.players.length && move; player += 1) {
      const lines = reader(await ask(['make ' + move.pairs.join(' '), 'board', 'moves']));
      const standing = standingOf(lines.line());
      if (!standing.player) { if (standing.scores) made += 1; break; }
      made += 1;
      const board = lines.numbers();
      const { moves } = lines.moves();
      drawing.learn(standing.player, moves.flatMap(pairs => RbgBoard.changes(game, board, pairs)));
      move = moves.length > 0 ? { pairs: moves[0] } : null;
    }
    if (made > 0) await ask(['back ' + made]);
    findClicks();
  };

  /* Makes a move. What came after the present step is kept if it is the same move. */
  const make = async pairs => {
    const before = steps[at];
    const lines = reader(await ask([makeLine({ pairs }), ...STAND, 'moves']));
    const step = readStep(before, pairs, before.standing.player, lines);
    if (step.standing.fault === 'error illegal') return false;
    if (step.standing.fault) { say(showFault(step.standing.fault)); return false; }
    tell(before, step);
    const later = steps[at + 1];
    const isSame = later && (later.isOld ? later.told === step.told : later.pairs.join(' ') === pairs.join(' '));
    steps = [...steps.slice(0, at + 1), step, ...(isSame ? steps.slice(at + 2) : [])];
    at += 1;
    chosen = [];
    hinted = [];
    await takeMoves(lines);
    return true;
  };

  /* Makes a move again that was made by other rules: the same squares have to change, whatever the numbers of the actions. */
  const makeAgain = async old => {
    const same = legal.filter(move => told(move.changed, move.pairs) === old.told);
    const move = same.find(one => one.pairs.join(' ') === old.pairs.join(' ')) || same[0];
    return move ? make(move.pairs) : false;
  };

  const showFault = fault => ({ 'error over': 'that move leads to a question above the limits of play', 'error keeper': 'after that move the keeper makes 1,000 moves in a row' }[fault] || fault);

  const play = move => { thinking += 1; isPaused = false; say(''); inTurn(async () => { await make(move.pairs); meant = at; }); };

  /* Goes to a step that has been, at most to before one that isn't legal now. Which one is found once those before are reached. */
  const goTo = find => { thinking += 1; inTurn(async () => {
    const index = find();
    say('');
    chosen = [];
    hinted = [];
    if (index === at || index < 0 || index >= steps.length) return;
    if (index < at) await walk(['back ' + (at - index)], index);
    while (at < index) {
      const old = steps.findIndex((one, other) => other > at && one.isOld);
      const end = old < 0 ? index : Math.min(old - 1, index);
      if (end > at) await walk(steps.slice(at + 1, end + 1).map(makeLine), end);
      else if (!await makeAgain(steps[at + 1])) { say('move ' + (at + 1) + ' is not legal now'); break; }
    }
    meant = at < index ? Math.max(meant, index) : index;
    isPaused = at < steps.length - 1;
  }); };

  const walk = async (questions, index) => {
    const lines = reader(await ask([...questions, 'moves']));
    for (let one = 0; one < questions.length; one += 1) lines.line();
    at = index;
    await takeMoves(lines);
  };

  /* Where a person is to move before the present step, and after it; the next step if there is no such place. */
  const isPersons = ({ standing }) => standing.player > 0 && isPerson(standing.player);
  const undo = () => goTo(() => {
    const to = steps.slice(0, at).findLastIndex(isPersons);
    return to < 0 ? at - 1 : to;
  });
  const redo = () => goTo(() => {
    const to = steps.findIndex((one, index) => index > at && isPersons(one));
    const isPlayed = game.players.some((_, index) => isPerson(index + 1));
    return to > 0 ? to : isPlayed ? steps.length - 1 : at + 1;
  });

  /* Lets programs go on that wait. */
  const resume = () => { isPaused = false; thinking += 1; show(); goOn(); };

  /* Clicks. */
  const click = vertex => {
    if (isBusy || !steps[at] || !isPerson(steps[at].standing.player)) return;
    focused = vertex;
    if (chosen.length > 0 && vertex === chosen[0]) { chosen = []; show(); return; }
    const clicks = [...chosen, vertex];
    let fits = fitting(clicks);
    if (fits.length === 0) {
      fits = fitting([vertex]);
      /* One move alone may be meant, in another order. */
      const wanted = chosen.length > 0 && fits.length === 0 ? legal.filter(move => clicks.every(one => move.clicks.includes(one))) : [];
      if (wanted.length === 1) { play(wanted[0]); return; }
      chosen = fits.length > 0 ? [vertex] : [];
    } else chosen = clicks;
    if (fits.length === 1 && (chosen.length >= fits[0].least || isDone(fits[0], chosen))) play(fits[0]); else show();
  };

  const nearest = (from, dx, dy) => {
    const { places } = drawing.layout;
    let best = from;
    let least = Infinity;
    places.forEach(([x, y], vertex) => {
      const [right, down] = [x - places[from][0], y - places[from][1]];
      const along = right * dx + down * dy;
      const aside = Math.abs(right * dy) + Math.abs(down * dx);
      if (vertex !== from && along > 0.5 && along + 2.2 * aside < least) { least = along + 2.2 * aside; best = vertex; }
    });
    return best;
  };

  /* Leads the keys to a square, and tells of it. */
  const focus = vertex => {
    focused = vertex;
    drawing.frame(vertex);
    drawing.svg.focus({ preventScroll: true });
    bringIntoView(vertex);
    tellSquare(vertex);
  };

  /* Scrolls a square into the part of the board that can be seen. */
  const bringIntoView = vertex => {
    const stage = get('stage');
    const box = stage.getBoundingClientRect();
    const half = drawing.svg.getBoundingClientRect().width / drawing.width * 5;
    const isIn = (point, from, to) => point - half >= from && point + half <= to;
    const [x, y] = drawing.pointOf(vertex);
    if (!isIn(x, box.left, box.right) || !isIn(y, box.top, box.bottom)) stage.scrollBy(x - box.left - box.width / 2, y - box.top - box.height / 2);
    const now = drawing.pointOf(vertex)[1];
    if (!isIn(now, 0, innerHeight)) scrollBy(0, now - innerHeight / 2);
  };

  /* Tells of the square at which a pointer or the keys are. */
  const tellSquare = vertex => {
    pointed = vertex;
    const text = vertex < 0 ? '' : drawing.tell(vertex) + (chosen.includes(vertex) ? ', chosen' : next.has(vertex) ? ', can be chosen' : '');
    if (get('spot').textContent !== text) get('spot').textContent = text;
    drawing.svg.style.cursor = next.has(vertex) ? 'pointer' : '';
  };

  document.addEventListener('keydown', event => {
    if (!drawing || event.ctrlKey || event.altKey || event.metaKey) return;
    const target = event.target;
    if (['INPUT', 'SELECT', 'TEXTAREA'].includes(target.tagName)) return;
    const onBoard = drawing.svg.contains(target);
    const arrow = { ArrowLeft: [-1, 0], ArrowRight: [1, 0], ArrowUp: [0, -1], ArrowDown: [0, 1] }[event.key];
    const acts = {
      Home: () => goTo(() => 0), End: () => goTo(() => steps.length - 1), u: undo, r: redo, Backspace: undo, g: () => { if (isPaused) resume(); },
      h: () => hint(), Escape: () => { chosen = []; hinted = []; show(); }, '+': () => zoomBy(1.25), '-': () => zoomBy(0.8),
      b: () => focus(focused),
    };
    let act = acts[event.key];
    if (onBoard && arrow) act = () => focus(nearest(focused, arrow[0], arrow[1]));
    if (!onBoard && arrow && arrow[0] !== 0) act = arrow[0] < 0 ? undo : redo;
    if (onBoard && (event.key === 'Enter' || event.key === ' ')) act = () => click(focused);
    if (act) { event.preventDefault(); act(); }
  });

  /* Zoom. */
  let zoom = 1;
  const zoomBy = factor => {
    zoom = Math.min(8, Math.max(0.3, zoom * factor));
    sizeBoard();
    const seen = chosen.length > 0 ? chosen[chosen.length - 1] : document.activeElement === drawing.svg ? focused : -1;
    if (seen >= 0) bringIntoView(seen);
  };
  const sizeBoard = () => {
    const shape = drawing.width / drawing.height;
    drawing.svg.style.width = 'min(' + (100 * zoom).toFixed(0) + '%, ' + (78 * zoom * shape).toFixed(1) + 'vh)';
  };

  /* Sides: a person, random moves, or playouts. */
  const isPerson = player => { const side = get('side-' + player); return !side || side.value === 'person'; };
  const showSides = () => {
    const kept = Array.from(get('sides').querySelectorAll('select')).map(side => side.value);
    get('sides').replaceChildren(...game.players.map((name, index) => {
      const label = document.createElement('label');
      const side = document.createElement('select');
      side.id = 'side-' + (index + 1);
      for (const [value, text] of [['person', 'a person'], ['random', 'random'], ['think', 'playouts']]) side.append(new Option(text, value));
      side.value = kept[index] || 'person';
      side.onchange = () => { chosen = []; resume(); };
      label.append(name + ' ', side);
      return label;
    }));
  };

  const goOn = () => {
    const step = steps[at];
    if (!step || isBusy || isPaused || !step.standing.player || isPerson(step.standing.player) || legal.length === 0) return;
    const mine = thinking += 1;
    setTimeout(() => { if (mine === thinking) inTurn(async () => {
      if (mine !== thinking || isPaused || step !== steps[at]) return;
      const kind = get('side-' + step.standing.player).value;
      const move = kind === 'think' ? await best(Number(get('patience').value) || 500, () => mine === thinking) : legal[Math.floor(Math.random() * legal.length)];
      if (!move || mine !== thinking) return;
      isPaused = !await make(move.pairs);
      meant = at;
    }); }, 60);
  };

  /* The move with the best mean of playouts, of which the promising ones get more. */
  const best = async (patience, goesOn) => {
    const player = steps[at].standing.player;
    const most = game.bounds[player - 1] || 1;
    const begun = performance.now();
    const arms = legal.map(move => ({ move, count: 0, sum: 0 }));
    if (arms.length === 1) return arms[0].move;
    let total = 0;
    let seed = Math.floor(Math.random() * 1e9);
    let many = 4;
    while (performance.now() - begun < patience && goesOn()) {
      const worth = arm => arm.count === 0 ? Infinity : arm.sum / arm.count + 1.2 * Math.sqrt(Math.log(total + 1) / arm.count);
      const batch = arms.slice().sort((one, two) => worth(two) - worth(one)).slice(0, many);
      const questions = batch.flatMap(arm => ['make ' + arm.move.pairs.join(' '), 'random ' + (seed += 1) + ' 2', 'back']);
      const asked = performance.now();
      const lines = reader(await ask(questions));
      let hasFailed = false;
      for (const arm of batch) {
        const made = lines.line();
        if (made.startsWith('error')) { arm.count += 1e6; hasFailed = true; break; }
        const head = lines.line();
        if (head.startsWith('random')) {
          for (let left = 2; left > 0;) {
            const told = lines.line().split(' ');
            const count = Number(told.pop());
            arm.sum += count * (told[0] === '-' ? 0.5 : Number(told[player - 1]) / most);
            arm.count += count;
            total += count;
            left -= count;
          }
        } else { arm.count += 2; arm.sum += 1; total += 2; }
        lines.line();
      }
      if (hasFailed) await follow();
      many = performance.now() - asked > 80 ? Math.max(1, Math.floor(many / 2)) : Math.min(32, many + 2);
    }
    arms.sort((one, two) => two.count % 1e6 - one.count % 1e6 || two.sum - one.sum);
    return arms[0].move;
  };

  const hint = () => { if (legal.length > 0) { const mine = thinking += 1; inTurn(async () => {
    const move = await best(Number(get('patience').value) || 500, () => mine === thinking);
    if (mine !== thinking) return;
    hinted = move.clicks;
    say('a hint: ' + told(move.changed, move.pairs), 'quiet');
  }); } };

  /* Records. */
  const script = () => {
    const lines = ['config 3600000 0 0'];
    steps.slice(1, at + 1).forEach((step, index) => lines.push('m ' + step.mover + ' ' + (index + 1) * 1000 + ' M' + step.pairs.join(' ')));
    return lines.join(LINE) + LINE;
  };

  const save = (name, text) => {
    const link = document.createElement('a');
    link.href = URL.createObjectURL(new Blob([text], { type: 'text/plain' }));
    link.download = name;
    link.click();
    setTimeout(() => URL.revokeObjectURL(link.href), 10000);
  };

  const fileName = () => game.file.split('/').pop();
  const shortName = () => fileName().replace(/[.]rbg$/, '');

  const saveRecord = async () => {
    const { status, text } = await post('/record', script());
    if (status === 200) save(shortName() + '.record', text);
    else say('no record: ' + text);
  };

  const savePosition = async () => {
    const { status, text } = await post('/position', script());
    if (status === 200) save(shortName() + '_' + at + '.rbg', text);
    else say(text.trim() || 'no position');
  };

  /* Makes the moves of a file. The match that is here stays if none of them can be made. */
  const open = (name, text) => inTurn(async () => {
    if (!game) return;
    const moves = RbgMoves.movesIn(text);
    if (moves.length === 0) { say(name + ': it has no moves'); return; }
    const before = { steps, at };
    say('');
    await restart();
    let count = 0;
    for (const { readings } of moves) {
      const one = readings.find(pairs => legal.some(move => move.pairs.join(' ') === pairs.join(' '))) || readings[0];
      if (!await make(one)) break;
      count += 1;
    }
    const why = get('problem').textContent || 'it is not legal here';
    if (count === moves.length) say(name + ': ' + count + ' moves', 'quiet');
    else if (count > 0) say(name + ': move ' + (count + 1) + ', in line ' + moves[count].line + ': ' + why);
    else {
      steps = before.steps;
      if (before.at > 0) await walk(steps.slice(1, before.at + 1).map(makeLine), before.at);
      say(name + ': its first move, in line ' + moves[0].line + ': ' + why + '. The match stays');
      return;
    }
    meant = at;
    isPaused = false;
  });

  const restart = async () => {
    if (at > 0) await ask(['back ' + at]);
    steps = [];
    at = 0;
    await begin();
  };

  /* Makes moves again after the rules have changed, up to a step, and returns whether all are legal. */
  const replay = async end => {
    for (const step of steps) step.isOld = step !== steps[0];
    while (at < Math.min(end, steps.length - 1)) if (!await makeAgain(steps[at + 1])) return false;
    return true;
  };

  /* The match is kept where a page that is loaded again finds it: the moves as they are told, and where one stands. */
  const keptUnder = () => 'rbg ' + game.file;
  let keptLast = '';
  const keepMatch = () => {
    const moves = steps.slice(1).map(({ pairs, mover, told, text, standing }) => ({ pairs, mover, told, text, standing }));
    const sides = game.players.map((_, index) => get('side-' + (index + 1)).value);
    const kept = JSON.stringify({ moves, at: meant, sides });
    if (kept === keptLast) return;
    keptLast = kept;
    try { sessionStorage.setItem(keptUnder(), kept); } catch (error) { /* (there is no room) */ }
  };

  /* The match that a page has kept before it was loaded again. What is no such match counts as none. */
  const takeKept = () => {
    try {
      const { moves, at: end, sides } = JSON.parse(sessionStorage.getItem(keptUnder()));
      if (!moves.every(({ pairs, told, text, standing }) => Array.isArray(pairs) && [told, text].every(one => typeof one === 'string') && standing)) return;
      steps = [{}, ...moves];
      meant = Math.min(end, moves.length);
      game.players.forEach((_, index) => { get('side-' + (index + 1)).value = ['random', 'think'].find(kind => kind === sides[index]) || 'person'; });
    } catch (error) { steps = []; meant = 0; }
  };

  /* Looks whether the file has changed. */
  const look = async () => {
    const state = await stateOf();
    const isRefused = state.refused === 1;
    get('notes').dataset.kind = isRefused ? 'refused' : state.notes.startsWith('no warnings') ? 'quiet' : 'warned';
    if (state.notes !== shownNotes) showNotes(state.notes);
    document.body.dataset.refused = isRefused ? 'yes' : 'no';
    if (state.version !== version && state.version > 0) await load(state.version);
    const stale = !game || !(isRefused || state.missing) ? '' : fileName() + (state.missing ? ' cannot be read' : ' is refused') + ': playing by the last good text';
    if (get('stale').textContent !== stale) get('stale').textContent = stale;
  };

  /* Shows what is said of the file: lines that are broken where they are too long, and excerpts, which are not. */
  const showNotes = notes => {
    shownNotes = notes;
    const parts = [];
    for (const line of notes.trimEnd().split(LINE)) {
      const kind = /^ *[0-9]* [|]/.test(line) ? 'excerpt' : 'message';
      if (parts.length === 0 || parts[parts.length - 1].className !== kind) {
        parts.push(document.createElement('div'));
        parts[parts.length - 1].className = kind;
      }
      parts[parts.length - 1].append(line + LINE);
    }
    get('notes').replaceChildren(...parts);
    parts.forEach(scrollToMark);
  };

  /* Scrolls an excerpt to where its mark is. */
  const scrollToMark = excerpt => {
    const lines = excerpt.textContent.split(LINE);
    const mark = Math.max(...lines.map(line => line.indexOf('^')));
    const width = excerpt.scrollWidth / Math.max(...lines.map(line => line.length));
    if (excerpt.className === 'excerpt' && mark * width > excerpt.clientWidth - 40) excerpt.scrollLeft = mark * width - excerpt.clientWidth / 2;
  };

  const load = async () => {
    game = RbgBoard.read(await (await fetch('/game')).text());
    version = game.version;
    const state = await stateOf();
    stamp = state.stamp;
    drawing = RbgBoard.draw(game);
    pointed = -1;
    get('title').textContent = game.title;
    document.title = game.title;
    get('rules').textContent = game.text;
    focused = Math.min(focused, drawing.layout.places.length - 1);
    listen(drawing.svg);
    for (const id of ['nearer', 'farther', 'save', 'save-position', 'file']) get(id).disabled = false;
    say('');
    sizeBoard();
    showSides();
    if (steps.length === 0) takeKept();
    at = 0;
    if (state.made > 0) await ask(['back ' + state.made]);
    await begin();
    await getToKnow();
    if (!await replay(meant) && get('problem').textContent === '') say('the rules have changed: move ' + (at + 1) + ' of ' + (steps.length - 1) + ' is not legal now, and kept for Redo');
    isPaused = isPaused || at < steps.length - 1;
    document.body.dataset.version = version;
  };

  /* The board can be reached by the key Tab, and by a pointer. */
  const listen = svg => {
    for (const [name, value] of Object.entries({ tabindex: 0, role: 'application', 'aria-label': 'the board', 'aria-describedby': 'spot' })) svg.setAttribute(name, value);
    svg.addEventListener('click', event => { const vertex = drawing.vertexAt(event); if (vertex >= 0) click(vertex); });
    svg.addEventListener('pointermove', event => tellSquare(drawing.vertexAt(event)));
    svg.addEventListener('focus', () => { if (svg.matches(':focus-visible')) tellSquare(focused); });
  };

  const start = () => {
    get('first').onclick = () => goTo(() => 0);
    get('undo').onclick = undo;
    get('redo').onclick = redo;
    get('go-on').onclick = resume;
    get('hint').onclick = hint;
    get('nearer').onclick = () => zoomBy(1.25);
    get('farther').onclick = () => zoomBy(0.8);
    get('save').onclick = saveRecord;
    get('save-position').onclick = savePosition;
    get('file').onchange = async () => { const [file] = get('file').files; if (file) open(file.name, await file.text()); get('file').value = ''; };
    document.ondragover = event => event.preventDefault();
    document.ondrop = async event => { event.preventDefault(); const [file] = event.dataTransfer.files; if (file) open(file.name, await file.text()); };
    inTurn(look);
    setInterval(() => { if (!isBusy && !isLooking) inTurnQuietly(look); }, 1000);
  };

  /* A look that shows nothing unless something has changed. */
  const inTurnQuietly = act => {
    isLooking = true;
    queue = queue.then(async () => {
      const before = version;
      try { await act(); get('lost').hidden = true; } catch (error) { get('lost').hidden = false; }
      isLooking = false;
      if (before !== version) { show(); goOn(); }
    });
  };

  return { start, state: () => ({ at, steps, legal, chosen, game, drawing, isPaused }), click, open };
})();
RbgPlay.start();
";
