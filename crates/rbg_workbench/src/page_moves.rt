//! The script of moves on the page on which a game is played by hand: how answers are read, what is clicked for a move, what its
//! button says, and which moves a file holds.

/// The script: it leaves `RbgMoves`, and needs `RbgBoard`. It holds no byte that begins or ends a string of this language.
pub(crate) const MOVES_SCRIPT: &[u8] = b"'use strict';
const RbgMoves = (() => {
  const { LINE } = RbgBoard;

  /* A reader of the lines of answers. */
  const reader = lines => {
    let next = 0;
    const numbers = line => line.split(' ').slice(1).map(Number);
    return {
      line: () => lines[next++],
      numbers: () => numbers(lines[next++]),
      moves: () => {
        const [word, count, cut] = lines[next++].split(' ');
        if (word !== 'moves') return { moves: [], cut: true };
        const moves = lines.slice(next, next + Number(count)).map(line => line.split(' ').map(Number));
        next += Number(count);
        return { moves, cut: cut === 'cut' };
      },
    };
  };

  const standingOf = line => {
    const [word, ...numbers] = line.split(' ');
    if (word === 'player') return { player: Number(numbers[0]), scores: null, fault: null };
    if (word === 'finished') return { player: 0, scores: numbers.map(Number), fault: null };
    return { player: 0, scores: null, fault: line };
  };

  /* The ways in which the squares that a move changes are clicked: for each piece of the mover that leaves a square, from there,
     to where its pieces arrive, the farthest first, and then what else changes. */
  const waysOf = (drawing, changed, mover) => {
    const isMine = piece => drawing.looks[piece].owner === mover && !drawing.looks[piece].hidden;
    const isNobodys = piece => !drawing.looks[piece].hidden && drawing.looks[piece].owner === 0;
    const rank = ({ was, is }) => isMine(is) && !isMine(was) ? (drawing.looks[was].hidden ? 1 : 1.5) : isNobodys(is) ? 2 : 3;
    const far = (one, other) => Math.hypot(...[0, 1].map(axis => drawing.layout.places[one][axis] - drawing.layout.places[other][axis]));
    const after = (first, others) => others
      .map((change, index) => [rank(change), first && rank(change) === 1 ? -far(first.vertex, change.vertex) : 0, index, change.vertex])
      .sort((one, two) => one[0] - two[0] || one[1] - two[1] || one[2] - two[2]).map(part => part[3]);
    const left = changed.filter(({ was, is }) => isMine(was) && !isMine(is));
    if (left.length === 0 || changed.length < 2) return [after(null, changed)];
    return left.map(first => [first.vertex, ...after(first, changed.filter(change => change !== first))]);
  };

  /* How many squares of a move are clicked at least: one if, besides it, only pieces of others are turned or taken; else two, so that
     nobody makes a move who only wanted to choose a piece. */
  const leastOf = (drawing, changed, mover, [first]) => {
    const owner = piece => drawing.looks[piece].owner;
    const isOthers = ({ was }) => owner(was) > 0 && owner(was) !== mover;
    return changed.every(change => change.vertex === first ? owner(change.was) !== mover : isOthers(change)) ? 1 : 2;
  };

  /* Finds the squares of a move, in each way, and those of its other pairs. */
  const findSquares = (drawing, move, mover) => {
    const { changed, pairs } = move;
    move.ways = waysOf(drawing, changed, mover);
    const [squares] = move.ways;
    move.least = leastOf(drawing, changed, mover, squares);
    move.others = [];
    for (let one = 0; one < pairs.length; one += 2) if (!squares.includes(pairs[one]) && !move.others.includes(pairs[one])) move.others.push(pairs[one]);
  };

  /* Leaves out the ways on which another move would be done before, if there are others: who castles begins with the king. */
  const chooseWays = legal => {
    const done = new Set(legal.filter(move => move.ways.length === 1).map(move => move.ways[0].join(' ')));
    const isOwn = way => !way.some((_, at) => at > 0 && done.has(way.slice(0, at).join(' ')));
    for (const move of legal) if (move.ways.length > 1 && move.ways.some(isOwn)) move.ways = move.ways.filter(isOwn);
  };

  /* The moves, by the squares of each. */
  const bySquares = legal => {
    const keys = new Map();
    for (const move of legal) {
      const key = move.ways[0].join(' ');
      if (keys.has(key)) keys.get(key).push(move); else keys.set(key, [move]);
    }
    return keys;
  };

  /* Finds what is clicked for each move. Where squares alone don't tell moves apart, those of their other pairs are clicked too. */
  const findClicks = (drawing, legal, mover) => {
    for (const move of legal) findSquares(drawing, move, mover);
    chooseWays(legal);
    for (const [key, same] of bySquares(legal)) {
      const differ = same.length > 1 && new Set(same.map(move => move.others.join(' '))).size > 1;
      const isPlain = differ && key === '' && same.length < 5 && new Set(same.map(move => move.pairs.filter((_, one) => one % 2 === 1).join(' '))).size === same.length;
      for (const move of same) {
        if (differ && !isPlain) move.ways = move.ways.map(way => [...way, ...move.others]);
        move.clicks = move.ways[0];
      }
    }
  };

  /* The ways of a move that begin with some clicks. */
  const waysFrom = (move, clicks) => move.ways.filter(way => clicks.every((vertex, index) => way[index] === vertex));

  /* Whether some clicks are all those of a move, in one of its ways. */
  const isDone = (move, clicks) => waysFrom(move, clicks).some(way => way.length === clicks.length);

  /* The moves of which a button may have to say what they set: those that change no piece, and those with the squares of others.
     None if there are many. */
  const inNeedOfValues = legal => {
    const needed = [...bySquares(legal).values()].flatMap(same => same.length > 1 || same[0].changed.length === 0 ? same : []);
    return needed.length < 13 ? needed : [];
  };

  /* What a move sets: the variables that have another value after it, or at least another one than after the other moves. */
  const spellSettings = (variables, values, move, among) => {
    if (!move.after) return '';
    const spelt = (one, isTold) => variables.flatMap((name, at) => isTold(one.after[at], at) ? [name + ' ' + one.after[at]] : []).join(', ');
    const fresh = one => spelt(one, (value, at) => value !== values[at]);
    const others = among.filter(one => one !== move && one.after);
    if (fresh(move) !== '' && others.every(one => fresh(one) !== fresh(move))) return fresh(move);
    return spelt(move, (value, at) => others.some(one => one.after[at] !== value));
  };

  /* The lines of a record, a script or a list that are moves of players, each with its number and the pairs that it may mean: before
     those of a list there may be a player, or a moment and a player. */
  const movesIn = text => {
    const lines = text.split(LINE).map(line => line.trim());
    const numbersOf = line => line.split(' ').map(Number);
    const isRecord = lines[0] === 'rbg 1' || lines[0] === 'rbg 2';
    const before = lines[0] === 'rbg 2' ? 1 : 0;
    const readingsOf = line => {
      if (/^[0-9]+( [0-9]+)+$/.test(line)) {
        const numbers = numbersOf(line);
        if (isRecord) return numbers[before] > 0 ? [numbers.slice(before + 1)] : [];
        return [0, 1, 2].map(front => numbers.slice(front)).filter(pairs => pairs.length > 0 && pairs.length % 2 === 0);
      }
      const said = isRecord ? null : line.match(/^(m [0-9]+ [0-9]+ M|move [0-9]+ )([0-9 ]+)$/);
      return said ? [numbersOf(said[2])] : [];
    };
    return lines.map((line, index) => ({ line: index + 1, readings: readingsOf(line) })).filter(({ readings }) => readings.length > 0);
  };

  return { reader, standingOf, findClicks, waysFrom, isDone, inNeedOfValues, spellSettings, movesIn };
})();
";
