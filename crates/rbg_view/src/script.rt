//! The script of a board that is drawn: where the vertices lie, how the pieces look, and the picture itself.

/// The script: it leaves `RbgBoard`, with `read`, `spellStep`, `changes`, `draw` and more. It holds no byte that begins or ends a
/// string of this language, so that it can be read here as it is.
pub const BOARD_SCRIPT: &[u8] = b"'use strict';
const RbgBoard = (() => {
  const LINE = String.fromCharCode(10);
  const CHESS = { k: 0, g: 0, q: 1, r: 2, u: 2, b: 3, n: 4, p: 5, king: 0, queen: 1, rook: 2, bishop: 3, knight: 4, pawn: 5 };
  const NAMED = { queen: 0x265B, king: 0x265A, rook: 0x265C, bishop: 0x265D, knight: 0x265E, pawn: 0x265F, arrow: 0x2715, cross: 0x2715, ring: 0x25CB, dot: 0x25CF, wall: 0x25A6, crown: 0x265B, castle: 0x2612, block: 0x25A6 };
  const COLOURS = {
    white: '#fbfbf6', black: '#2b2b2b', red: '#c8382b', blue: '#2f62b5', green: '#2c8439', yellow: '#f0c330', gold: '#f0c330',
    orange: '#e07f1f', purple: '#7b3fa0', violet: '#7b3fa0', pink: '#e58bb1', brown: '#7a4a24', grey: '#8a8a8a', gray: '#8a8a8a', silver: '#c8c8c8',
    cross: '#2f62b5', ring: '#c8382b', x: '#2f62b5', o: '#c8382b',
  };
  const SPARE = ['#fbfbf6', '#2b2b2b', '#c8382b', '#2f62b5', '#2c8439', '#f0c330', '#7b3fa0', '#e07f1f'];
  const words = text => text.split(' ').filter(word => word !== '');

  /* What the lines of a game say, and after the line `text` its description. */
  const read = given => {
    const end = given.indexOf(LINE + 'text' + LINE);
    const text = given.slice(end + 6);
    const of = {};
    const edges = [];
    const signs = new Map();
    for (const line of given.slice(0, end).split(LINE)) {
      const [word, ...rest] = line.split(' ');
      if (word === 'edges') edges.push(rest.map(to => to === '-' ? -1 : Number(to)));
      else if (word === 'sign') signs.set(rest[0], rest[1]);
      else of[word] = rest;
    }
    const comments = text.split(LINE).map(line => line.trim()).filter(line => line.startsWith('//')).map(line => line.slice(2).trim());
    const file = of.file.join(' ');
    const first = comments[0] || '';
    const title = first.split('. ')[0].split(', ')[0].split(': ')[0].replace(/[.]$/, '');
    return {
      version: Number(of.version), file, text,
      title: text.trimStart().startsWith('//') && title !== '' && title.length < 60 ? title : file.split('/').pop().replace(/[.]rbg$/, ''),
      players: of.players, pieces: of.pieces, variables: of.variables, bounds: of.bounds.map(Number),
      directions: of.directions, layout: of.places ? layoutOf(of) : graphLayout(of.squares, edges), signs, empty: of.pieces.includes('e') ? 'e' : 'empty',
      actions: of.actions.map(word => word === '-' ? null : { kind: word[0], of: Number(word.slice(1)) }),
    };
  };

  /* The list cut into groups of so many. */
  const groups = (list, size) => Array.from({ length: Math.floor(list.length / size) }, (_, at) => list.slice(at * size, at * size + size));

  /* Where squares are, what they are called, and what is drawn between and beside them. */
  const layoutOf = of => ({
    shape: of.shape[0], names: of.squares, places: groups(of.places.map(Number), 2),
    dark: Array.from(of.dark[0], digit => digit === '1'), lines: groups(of.lines.map(Number), 2),
    edgeNames: groups(of.labels, 3).map(([x, y, name]) => [Number(x), Number(y), name]), frame: of.frame.map(Number),
  });

  /* Places that keep neighbours near: how far two vertices are apart is how many edges lie between them. */
  const placesByEdges = (count, edges) => {
    const near = Array.from({ length: count }, () => new Set());
    edges.forEach(ends => ends.forEach((to, from) => { if (to >= 0 && to !== from) { near[from].add(to); near[to].add(from); } }));
    const far = near.map((_, from) => {
      const steps = Array(count).fill(-1);
      steps[from] = 0;
      const open = [from];
      for (const at of open) for (const to of near[at]) if (steps[to] < 0) { steps[to] = steps[at] + 1; open.push(to); }
      return steps.map(step => step < 0 ? Math.sqrt(count) : step);
    });
    const places = far.map((_, at) => [Math.cos(at * 2.399963) * Math.sqrt(at + 1), Math.sin(at * 2.399963) * Math.sqrt(at + 1)]);
    const rounds = count > 400 ? 30 : 300;
    for (let round = 0; round < rounds; round += 1) {
      for (let one = 0; one < count; one += 1) {
        let x = 0;
        let y = 0;
        let weight = 0;
        for (let two = 0; two < count; two += 1) {
          if (one === two) continue;
          const wanted = far[one][two];
          const [dx, dy] = [places[one][0] - places[two][0], places[one][1] - places[two][1]];
          const length = Math.hypot(dx, dy) || 0.001;
          const pull = 1 / (wanted * wanted);
          x += pull * (places[two][0] + dx * wanted / length);
          y += pull * (places[two][1] + dy * wanted / length);
          weight += pull;
        }
        if (weight > 0) places[one] = [x / weight, y / weight];
      }
    }
    return movedApart(places.map(([x, y]) => [x * 13, y * 13]), rounds);
  };

  /* Moves places apart that are so near that one would hide the other. */
  const movedApart = (places, rounds) => {
    const least = 10;
    for (let round = 0; round < rounds; round += 1) {
      for (let one = 0; one < places.length; one += 1) {
        for (let two = 0; two < one; two += 1) {
          const [dx, dy] = [places[one][0] - places[two][0], places[one][1] - places[two][1]];
          if (Math.abs(dx) >= least || Math.abs(dy) >= least) continue;
          const length = Math.hypot(dx, dy);
          if (length >= least || length === 0) continue;
          const part = (least - length) / length / 4;
          places[one] = [places[one][0] + dx * part, places[one][1] + dy * part];
          places[two] = [places[two][0] - dx * part, places[two][1] - dy * part];
        }
      }
    }
    return places;
  };

  /* The layout of a graph whose vertices nothing else places. */
  const graphLayout = (names, edges) => {
    const places = placesByEdges(names.length, edges);
    const lines = [];
    const seen = new Set();
    edges.forEach(ends => ends.forEach((to, from) => {
      const key = Math.min(from, to) + ' ' + Math.max(from, to);
      if (to >= 0 && to !== from && !seen.has(key)) { seen.add(key); lines.push([from, to]); }
    }));
    const [left, top] = [0, 1].map(axis => Math.min(...places.map(place => place[axis])) - 8);
    const room = Math.max(8, 5 + 0.8 * Math.max(...names.map(name => name.length)));
    const [right, bottom] = [0, 1].map(axis => Math.max(...places.map(place => place[axis])) + (axis === 0 ? room : 8));
    return { shape: 'round', names, places, dark: [], lines, edgeNames: [], frame: [left, top, right - left, bottom - top] };
  };

  /* Whose each piece is, or 0: that of the player whose name it begins or begins with, or with whose first letter it begins if
     there are pieces of other players with the same rest; else that of the one player whose moves were seen to put it; where
     none were seen, that of the one player whose turn puts it, as far as the order of the rules shows it. */
  const ownersOf = (game, seen) => {
    const put = game.pieces.map(() => new Set());
    let mover = 0;
    for (const action of game.actions) {
      if (action === null) continue;
      if (action.kind === 's') mover = action.of;
      if (action.kind === 'p') put[action.of].add(mover);
    }
    /* If players were seen to move, and never to put anything, the keeper puts the pieces. */
    const isKeepers = seen.movers.size > 0 && seen.put.every(players => players.size === 0);
    const first = game.players.map(player => player[0]);
    const isEmpty = name => name === game.empty;
    const byName = name => {
      const named = game.players.map((player, at) => player.startsWith(name) || name.startsWith(player + '_') ? at + 1 : 0).filter(at => at > 0);
      if (named.length === 1) return named[0];
      const letter = first.indexOf(name[0]);
      if (letter < 0 || first.lastIndexOf(name[0]) !== letter || name.length < 2) return 0;
      return first.some((other, at) => at !== letter && game.pieces.includes(other + name.slice(1))) ? letter + 1 : 0;
    };
    const owners = game.pieces.map((name, piece) => {
      if (isEmpty(name)) return 0;
      const owner = byName(name);
      const putters = [...(seen.put[piece].size > 0 ? seen.put[piece] : isKeepers ? [] : put[piece])].filter(player => player > 0);
      return owner > 0 ? owner : putters.length === 1 ? putters[0] : 0;
    });
    /* A piece that nothing puts, as a king that hasn't moved, is whose the others with its first letter are. */
    return owners.map((owner, piece) => {
      const name = game.pieces[piece];
      if (owner > 0 || put[piece].size > 0 || name.length < 2 || isEmpty(name)) return owner;
      const near = new Set(game.pieces.map((other, at) => other[0] === name[0] && other.length > 1 ? owners[at] : 0).filter(at => at > 0));
      return near.size === 1 ? [...near][0] : owner;
    });
  };

  /* Whether white can be read better on a colour than black. */
  const isDark = colour => {
    const [red, green, blue] = [1, 3, 5].map(at => parseInt(colour.slice(at, at + 2), 16) / 255).map(part => part <= 0.03928 ? part / 12.92 : ((part + 0.055) / 1.055) ** 2.4);
    return 0.2126 * red + 0.7152 * green + 0.0722 * blue < 0.18;
  };

  const coloursOf = game => {
    const used = new Set();
    const colours = game.players.map(name => {
      const own = COLOURS[name.toLowerCase()];
      if (own && !used.has(own)) { used.add(own); return own; }
      return null;
    });
    return colours.map(colour => colour || SPARE.find(spare => !used.has(spare) && used.add(spare)) || '#8a8a8a');
  };

  /* The colour that the name of a piece says: `b` and `w` are black and white if there are both. */
  const colourOfName = (game, name) => {
    const both = game.pieces.includes('b') && game.pieces.includes('w');
    const word = both && name === 'b' ? 'black' : both && name === 'w' ? 'white' : name;
    return word.length > 1 && !['cross', 'ring'].includes(word) ? COLOURS[word] : undefined;
  };

  const kindOf = (game, piece, owner) => {
    const name = game.pieces[piece];
    if (owner === 0) return name;
    const player = game.players[owner - 1];
    for (const front of [player + '_', player, player[0]]) if (name.length > front.length && name.startsWith(front)) { const kind = name.slice(front.length); return kind[0].toLowerCase() + kind.slice(1); }
    return name;
  };

  /* How each piece looks: its owner, its colour, its sign, and whether it is drawn. */
  const looksOf = (game, seen) => {
    const owners = ownersOf(game, seen);
    const colours = coloursOf(game);
    const kinds = game.pieces.map((_, piece) => kindOf(game, piece, owners[piece]));
    const owned = kinds.filter((_, piece) => owners[piece] > 0);
    const isChess = owned.includes('k') && owned.includes('q') && owned.filter(kind => kind === 'k').length > 1;
    const short = name => /^[a-z]_?[0-9]+$/.test(name) ? name.replace(/^[a-z]_?/, '') : name.length > 4 ? name.slice(0, 3) : name;
    return game.pieces.map((name, piece) => {
      const owner = owners[piece];
      const alone = owner > 0 && owners.filter(one => one === owner).length === 1;
      const kind = kinds[piece];
      const own = owner > 0 ? undefined : colourOfName(game, name);
      let sign = short(kind);
      let shape = owner > 0 || own ? 'disc' : 'block';
      if (alone || own) sign = '';
      if (isChess && owner > 0 && kind in CHESS) { sign = String.fromCodePoint(0x265A + CHESS[kind]); shape = 'sign'; }
      else if (NAMED[kind]) { sign = String.fromCodePoint(NAMED[kind]); shape = owner > 0 && !alone ? 'disc' : 'sign'; }
      if (game.signs.has(name)) { sign = game.signs.get(name); shape = [...sign].some(one => one.codePointAt(0) > 0x2000) ? 'sign' : shape; }
      const hidden = (game.signs.has(name) && sign === '') || (name === game.empty && !game.signs.has(name));
      return { name, owner, kind, sign, shape, hidden, colour: owner > 0 ? colours[owner - 1] : own || '#a99b82' };
    });
  };

  const make = (tag, attributes, parent) => {
    const element = document.createElementNS('http://www.w3.org/2000/svg', tag);
    for (const [name, value] of Object.entries(attributes)) element.setAttribute(name, value);
    if (parent) parent.append(element);
    return element;
  };

  /* Shapes around a point. */
  const disc = radius => 'm-' + radius + ' 0a' + radius + ' ' + radius + ' 0 1 0 ' + 2 * radius + ' 0a' + radius + ' ' + radius + ' 0 1 0-' + 2 * radius + ' 0z';
  const [DISC, RING, DOT] = [3.7, 4.4, 1.1].map(disc);
  const BLOCK = 'm-1.9-2.9h3.8a1 1 0 0 1 1 1v3.8a1 1 0 0 1-1 1h-3.8a1 1 0 0 1-1-1v-3.8a1 1 0 0 1 1-1z';

  /* For each shape of squares: that of a square, that of a frame within it, and how far from the middle a pointer may be. */
  const SQUARES = {
    square: { cell: 'm-5-5h10v10h-10z', frame: 'm-4.7-4.7h9.4v9.4h-9.4z', reach: 5 },
    hexagon: { cell: 'm0-5.77l5 2.88v5.78l-5 2.88-5-2.88v-5.78z', frame: 'm0-5.42l4.7 2.71v5.42l-4.7 2.71-4.7-2.71v-5.42z', reach: 5.77 },
    point: { cell: disc(2.2), frame: disc(2.2), reach: 5 },
    round: { cell: disc(3.6), frame: disc(3.6), reach: 5 },
  };

  const moveTo = ([x, y]) => 'M' + x + ' ' + y;

  /* Draws a piece on each of some places, in one path and one text. */
  const putPiece = (look, places, group) => {
    if (look.hidden || places.length === 0) return;
    const isSign = look.shape === 'sign';
    if (!isSign) make('path', { class: 'body', fill: look.colour, d: places.map(place => moveTo(place) + (look.shape === 'disc' ? DISC : BLOCK)).join('') }, group);
    if (look.sign === '') return;
    const isWhite = isDark(look.colour);
    const line = isWhite ? { stroke: '#fffc', 'stroke-width': 0.3 } : { stroke: '#000', 'stroke-width': 0.35 };
    const inks = isSign ? { fill: look.colour, 'paint-order': 'stroke', ...line } : { fill: isWhite ? '#fff' : '#111' };
    const size = isSign ? 8.4 : look.sign.length < 2 ? 4.6 : look.sign.length < 3 ? 3.6 : 2.6;
    const text = make('text', { class: 'sign', 'font-size': size, ...inks }, group);
    if ([...look.sign].length === 1) {
      [0, 1].forEach(axis => text.setAttribute('xy'[axis], places.map(place => place[axis]).join(' ')));
      text.textContent = look.sign.repeat(places.length);
    } else for (const [x, y] of places) make('tspan', { x, y }, text).textContent = look.sign;
  };

  /* A picture of one piece, as an element of its own. */
  const pictureOf = look => {
    const picture = make('svg', { class: 'board picture', viewBox: '-5 -5 10 10', 'aria-hidden': 'true' });
    putPiece(look, [[0, 0]], picture);
    return picture;
  };

  /* Draws what stays: lines, squares and names. Squares of one colour are one path, so that large boards are drawn as fast. */
  const putBoard = (game, places, group) => {
    const { layout } = game;
    const [, , width, height] = layout.frame;
    const { cell } = SQUARES[layout.shape];
    make('path', { class: 'edges', d: layout.lines.map(([from, to]) => moveTo(places[from]) + 'L' + places[to].join(' ')).join('') }, group);
    const size = Math.min(4.5, Math.max(2.6, Math.max(width, height) / 40));
    for (const [x, y, name] of layout.edgeNames) make('text', { class: 'name', x, y, style: 'font-size: ' + size.toFixed(1) + 'px' }, group).textContent = name;
    const cells = isDark => places.filter((_, vertex) => Boolean(layout.dark[vertex]) === isDark).map(place => moveTo(place) + cell).join('');
    make('path', { class: 'cell', d: cells(false) }, group);
    make('path', { class: 'cell dark', d: cells(true) }, group);
    const { names } = layout;
    if (layout.shape !== 'round' || names.length > (names.every(name => name.length < 4) ? 150 : 30)) return;
    places.forEach(([x, y], vertex) => { make('text', { class: 'name', x: x + 4.6, y: y + 4.4 }, group).textContent = names[vertex]; });
  };

  /* Makes the drawing of a game's board. */
  const draw = game => {
    const { layout } = game;
    const { shape } = layout;
    const { cell, frame, reach } = SQUARES[shape];
    const places = layout.places.map(place => place.map(part => Number(part.toFixed(2))));
    const seen = { movers: new Set(), put: game.pieces.map(() => new Set()) };
    let looks = looksOf(game, seen);
    const [, , width, height] = layout.frame;
    const svg = make('svg', { class: 'board ' + (shape === 'round' ? 'graph' : shape === 'point' ? 'points' : 'rows'), viewBox: layout.frame.join(' '), style: '--thin: ' + Math.min(1, Math.max(width, height) / 80).toFixed(2), role: 'img', 'aria-label': 'board' });
    const all = make('g', {}, svg);
    const title = make('title', {}, all);
    putBoard(game, places, all);

    /* Paths of marks below and above the pieces. Each is written only if it is another one. */
    const layer = name => {
      const path = make('path', { class: name }, all);
      let kept = '';
      return (vertices, shapesOf) => {
        const d = vertices.map(vertex => shapesOf(vertex).map(outline => moveTo(places[vertex]) + outline).join('')).join('');
        if (d !== kept) { kept = d; path.setAttribute('d', d); }
      };
    };
    const [changed, chosen] = ['cell changed', 'cell chosen'].map(layer);
    const held = game.pieces.map(() => ({ group: make('g', {}, all), on: '' }));
    const [turned, can, hint, spot, dots] = ['frame turned', 'frame can', 'frame hint', 'frame spot', 'dot'].map(layer);

    const showPieces = board => {
      const on = held.map(() => []);
      board.forEach((piece, vertex) => on[piece].push(vertex));
      held.forEach((one, piece) => {
        const now = on[piece].join(' ');
        if (one.on === now) return;
        one.on = now;
        one.group.replaceChildren();
        putPiece(looks[piece], on[piece].map(vertex => places[vertex]), one.group);
      });
    };

    let shown = [];
    const isRow = shape === 'square' || shape === 'hexagon';
    const lookAt = vertex => looks[shown[vertex]];
    const around = vertex => { const look = lookAt(vertex); return look.hidden ? [] : look.shape === 'disc' ? [DISC] : look.shape === 'block' ? [BLOCK] : isRow ? [] : [RING]; };
    const framed = vertex => isRow || lookAt(vertex).hidden ? [frame] : around(vertex);

    /* Shows a board, and marks squares of it. */
    const show = (board, marks) => {
      shown = board;
      showPieces(board);
      const marked = name => marks[name] || [];
      changed(marked('changed'), () => [cell]);
      chosen(marked('chosen'), () => [cell]);
      turned(isRow ? [] : marked('changed'), around);
      can(marked('can'), vertex => isRow ? [frame, ...around(vertex)] : framed(vertex));
      hint(marked('hint'), framed);
      dots(marked('can').filter(vertex => lookAt(vertex).hidden), () => [DOT]);
    };

    /* The vertex at which an event is, or -1. */
    const vertexAt = event => {
      const { x, y } = new DOMPoint(event.clientX, event.clientY).matrixTransform(svg.getScreenCTM().inverse());
      let nearest = -1;
      let least = reach;
      places.forEach((place, vertex) => {
        const [aside, along] = [Math.abs(place[0] - x), Math.abs(place[1] - y)];
        const far = shape === 'square' ? Math.max(aside, along) : Math.hypot(aside, along);
        if (far < least) { least = far; nearest = vertex; }
      });
      return nearest;
    };

    /* Where the middle of a vertex is in the window. */
    const pointOf = vertex => { const { x, y } = new DOMPoint(...places[vertex]).matrixTransform(svg.getScreenCTM()); return [x, y]; };

    /* What is told of a vertex: its number, its name and its piece. */
    const tell = vertex => vertex + ' ' + layout.names[vertex] + ': ' + game.pieces[shown[vertex]];
    svg.addEventListener('pointermove', event => { const vertex = vertexAt(event); title.textContent = vertex < 0 ? '' : tell(vertex); });

    const drawn = { svg, show, tell, vertexAt, pointOf, layout, looks, width, height };
    /* Frames the square that the keys have reached. */
    drawn.frame = vertex => spot([vertex], framed);
    /* Learns which pieces the moves of a player put, and draws them in its colour. */
    drawn.learn = (player, moves) => {
      if (player === 0) return;
      const fresh = moves.filter(({ is }) => !seen.put[is].has(player));
      if (fresh.length === 0 && seen.movers.has(player)) return;
      seen.movers.add(player);
      for (const { is } of fresh) seen.put[is].add(player);
      looks = looksOf(game, seen);
      drawn.looks = looks;
      for (const one of held) one.on = '';
    };
    return drawn;
  };

  /* The squares on which pairs leave another piece than stood there, in order of the first change: each with both pieces. */
  const changes = (game, pieces, pairs) => {
    const now = new Map();
    for (let at = 0; at + 1 < pairs.length; at += 2) {
      const action = game.actions[pairs[at + 1] - 1];
      if (action && action.kind === 'p') now.set(pairs[at], action.of);
    }
    return [...now].filter(([vertex, piece]) => pieces[vertex] !== piece).map(([vertex, piece]) => ({ vertex, was: pieces[vertex], is: piece }));
  };

  /* The squares on which two boards differ, each with both pieces. */
  const differences = (before, after) => after.map((is, vertex) => ({ vertex, was: before[vertex], is })).filter(({ was, is }) => was !== is);

  /* A move as it is spelt for people: each square whose piece changes, with both; if none does, the variables that are set. */
  const spell = (game, drawing, changed, pairs) => {
    const { names } = drawing.layout;
    const sign = piece => game.pieces[piece] === game.empty ? '.' : game.pieces[piece];
    if (changed.length > 0) return changed.map(({ vertex, was, is }) => names[vertex] + ' ' + sign(was) + ' > ' + sign(is)).join(', ');
    const actions = pairs.filter((_, at) => at % 2 === 1).map(position => game.actions[position - 1]);
    const set = new Set(actions.filter(action => action && action.kind === 'v').map(action => game.variables[action.of]));
    return (set.size > 0 ? 'sets ' + [...set].join(', ') + ' ' : '') + 'at ' + names[pairs[0]];
  };

  /* A step of play: the move, and what the keeper changes after it, if that is little. */
  const spellStep = (game, drawing, { changed, settled, pairs }) => {
    const keeper = settled.length > 0 && settled.length < 7 ? '; keeper: ' + spell(game, drawing, settled, []) : '';
    return spell(game, drawing, changed, pairs) + keeper;
  };

  return { LINE, read, draw, changes, differences, spell, spellStep, pictureOf };
})();
";
