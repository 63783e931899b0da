//! What is the same in each picture: how marks look, and what they mean.

/// The patterns and the looks of the classes. They differ in black and white too.
pub(crate) const STYLE: &str = "<defs>
<pattern id='w' width='7' height='7' patternUnits='userSpaceOnUse' patternTransform='rotate(45)'><path class='pw' d='M0 0H7V7H0Z'/><path class='ps' d='M0 0V7'/></pattern>
<pattern id='t' width='8' height='8' patternUnits='userSpaceOnUse'><path class='pt' d='M0 0H8V8H0Z'/><path class='ps' d='M0 0L8 8M8 0L0 8'/></pattern>
<pattern id='z' width='8' height='8' patternUnits='userSpaceOnUse'><path class='pz' d='M0 0H8V8H0Z'/><circle class='pd' cx='4' cy='4' r='1.5'/></pattern>
<marker id='a' viewBox='0 0 8 8' refX='7' refY='4' markerWidth='8' markerHeight='8' markerUnits='userSpaceOnUse' orient='auto'><path d='M0 0L8 4L0 8Z'/></marker>
</defs>
<style>
svg{background:#fff}text{font:11px sans-serif}.title,.name{font-weight:bold}.count{font-size:9px;text-anchor:middle}
.letter{font-weight:bold;font-size:10px;text-anchor:middle}.on,.name{paint-order:stroke;stroke:#fff;stroke-width:4px}
.pw{fill:#fde9c8}.pt{fill:#fbd5d5}.pz{fill:#dbe7fb}.ps{stroke:#333;stroke-width:1.4;fill:none}.pd{fill:#333}
rect{stroke:#000;stroke-width:1}.run{fill:#e6f4e6}.wait{fill:url(#w)}.throw{fill:url(#t)}.sleep{fill:url(#z)}
.masked rect{stroke-width:3}.hard rect{stroke-width:3;stroke-dasharray:8 3}.full{fill:#666}.empty{fill:#fff;stroke-dasharray:2 2}
.entry .bar,.entry .mark,.entry .end{fill:#333;stroke:none}.entry .hit{fill:#000;stroke:#fff}circle{fill:#fff;stroke:#000}
line{stroke:#000}.touch,.fork,.kill,.answer{marker-end:url(#a)}.fork{stroke-width:2}.kill{stroke-width:3}.answer{stroke-width:1.5;stroke-dasharray:5 2}
.ask{stroke-dasharray:2 2}.out{stroke-dasharray:1 3}.tick{stroke:#666;stroke-dasharray:1 5}.last{stroke-width:3}
</style>
";

/// What stands below each picture, and its end.
pub(crate) const LEGEND: &str = "<text class='title' y='0'>Legend</text>
<g class='open'><rect class='run' x='0' y='10' width='40' height='16'/><rect class='wait' x='130' y='10' width='40' height='16'/><rect class='throw' x='300' y='10' width='40' height='16'/><rect class='sleep' x='520' y='10' width='40' height='16'/></g>
<text x='46' y='22'>goes on</text><text x='176' y='22'>waits at a cell</text><text x='346' y='22'>waits for its throw to arrive</text><text x='566' y='22'>sleeps</text>
<g class='masked'><rect class='run' x='640' y='10' width='40' height='16'/></g><g class='hard'><rect class='run' x='740' y='10' width='40' height='16'/></g>
<text x='686' y='22'>masked</text><text x='786' y='22'>masked uninterruptibly</text>
<rect class='full' x='930' y='10' width='40' height='12'/><rect class='empty' x='1020' y='10' width='40' height='12'/><text x='976' y='22'>full cell</text><text x='1066' y='22'>empty cell</text>
<g class='entry'><rect class='bar' x='0' y='42' width='20' height='6'/><path class='hit' d='M140 34l9 12l-9 12l-9 -12z'/><rect class='end' x='300' y='34' width='6' height='24'/></g>
<text x='46' y='50'>local steps</text><text x='156' y='50'>receives an exception</text><text x='312' y='50'>has finished</text>
<text x='400' y='50'>F forks, N makes a cell, T takes, R reads, P puts, t p try to, ! throws, D asks for a delay, U wakes, O prints, E prints an error, A acquires, L releases, ? asks</text>
<line class='fork' x1='6' y1='66' x2='6' y2='88'/><line class='kill' x1='90' y1='66' x2='90' y2='88'/><line class='touch' x1='190' y1='66' x2='190' y2='88'/><line class='ask' x1='330' y1='66' x2='330' y2='88'/><line class='answer' x1='520' y1='66' x2='520' y2='88'/><line class='out' x1='650' y1='66' x2='650' y2='88'/><line class='tick' x1='760' y1='66' x2='760' y2='88'/>
<text x='14' y='80'>fork</text><text x='98' y='80'>exception</text><text x='198' y='80'>value or cell taken</text><text x='338' y='80'>asks a cell, and may wait</text><text x='528' y='80'>cell answers</text><text x='658' y='80'>output</text><text x='768' y='80'>the clock moves, in microseconds</text>
<text y='108'>One column is one entry of the history; each mark says in words what it stands for, where the pointer rests on it. More than 400 columns are drawn narrower, without letters.</text>
</g>
</svg>
";
