// What each call takes, a row for each kind from OPEN to HELP in their order; then what is said of a line whose
// name is none of these, and of one that is too long. No row has more than 64 bytes. specs/Table.antt has it too.
pub const TABLE: [u8; 940] = *b"\
    open takes N L D G NA\n\
    loss takes G\n\
    pluck takes A COUNT SEED\n\
    announce takes N L D\n\
    instant takes N L D\n\
    ask takes N L D\n\
    commit takes nothing\n\
    withdraw takes nothing\n\
    block takes OUT X1 X2 .. (at most 4096 each)\n\
    coefficients takes N D\n\
    length takes N D THRESHOLD\n\
    note takes N RATE M\n\
    draw takes STATE\n\
    record takes B1 B2 ..\n\
    run takes OUT B1 B2 .. (OUT at most 16384)\n\
    state takes nothing\n\
    line takes K (at most 2112)\n\
    wavwrite takes RATE ROOM X1 X2 .. (ROOM at most 16384, X 4096)\n\
    wavread takes ROOM B1 B2 .. (ROOM at most 4096)\n\
    gather takes START B1 B2 ..\n\
    least takes N D WANTED\n\
    junction takes LEFT RIGHT D NA\n\
    move takes D\n\
    tube takes A B\n\
    store takes ROOM (at most 16384)\n\
    load takes B1 B2 ..\n\
    panel takes B1 B2 ..\n\
    merge takes ROOM B1 .. / C1 .. (ROOM at most 32768)\n\
    string takes K CALL .. (a call of a voice but block)\n\
    mix takes OUT X1 X2 .. (at most 4096 each)\n\
    help takes nothing\n\
    no call has this name: help lists them\n\
    a line has at most 1048576 bytes\n";
