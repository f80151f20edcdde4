// The whole texts of the worked runs.

pub(crate) const ORDINARY: &[u8] = b"rx10 trace 2
places 2 heap 256
kills
joins
history
0 open t0 s1 in s0 0
1 spawn t0 t1 in s1 0 1 0.0
2 wait t0 s1
3 arrive t1 1
4 print t1 7 0.0.0
5 end t1
6 release t0 s1
7 print t0 8 1
8 end t0
9 release host s0
journal 0
journal 1
done
";

pub(crate) const KILL_PAST_THE_END: &[u8] = b"rx10 trace 2
places 2 heap 256
kills 1@50
joins
history
0 open t0 s1 in s0 0
1 spawn t0 t1 in s1 0 1 0.0
2 wait t0 s1
3 arrive t1 1
4 print t1 7 0.0.0
5 end t1
6 release t0 s1
7 print t0 8 1
8 end t0
9 release host s0
journal 0
journal 1
done
";

pub(crate) const KILL_JUST_PAST_THE_END: &[u8] = b"rx10 trace 2
places 2 heap 256
kills 1@10
joins
history
0 open t0 s1 in s0 0
1 spawn t0 t1 in s1 0 1 0.0
2 wait t0 s1
3 arrive t1 1
4 print t1 7 0.0.0
5 end t1
6 release t0 s1
7 print t0 8 1
8 end t0
9 release host s0
journal 0
journal 1
done
";

pub(crate) const LOST_IN_TRANSIT: &[u8] = b"rx10 trace 2
places 2 heap 256
kills 1@3
joins
history
0 open t0 s1 in s0 0
1 spawn t0 t1 in s1 0 1 0.0
2 wait t0 s1
3 death 1
4 release t0 s1 lost 1
5 end t0 thrown dead:1
6 release host s0 thrown dead:1
journal 0
journal 1
0 3 close
done
";

pub(crate) const ENDED_FIRST: &[u8] = b"rx10 trace 2
places 2 heap 256
kills 1@6
joins
history
0 open t0 s1 in s0 0
1 spawn t0 t1 in s1 0 1 0.0
2 wait t0 s1
3 arrive t1 1
4 print t1 7 0.0.0
5 end t1
6 death 1
7 release t0 s1
8 print t0 8 1
9 end t0
10 release host s0
journal 0
journal 1
0 6 close
done
";

pub(crate) const BORN_STRUCK: &[u8] = b"rx10 trace 2
places 2 heap 256
kills 1@1
joins
history
0 open t0 s1 in s0 0
1 death 1
2 spawn t0 t1 in s1 0 1 0.0
3 wait t0 s1
4 release t0 s1 lost 1
5 end t0 thrown dead:1
6 release host s0 thrown dead:1
journal 0
journal 1
0 1 close
done
";

pub(crate) const TWO_AT_ONCE: &[u8] = b"rx10 trace 2
places 3 heap 256
kills 1@4 2@4
joins
history
0 open t0 s1 in s0 0
1 spawn t0 t1 in s1 0 1 0.0
2 wait t0 s1
3 arrive t1 1
4 death 1
5 death 2
6 release t0 s1 lost 1
7 end t0 thrown dead:1
8 release host s0 thrown dead:1
journal 0
journal 1
0 4 close
journal 2
0 5 close
done
";

pub(crate) const ADOPTION: &[u8] = b"rx10 trace 2
places 4 heap 256
kills 2@12
joins
history
0 open t0 s1 in s0 0.0.0 | 0
1 spawn t0 t1 in s1 0 1 0.0.0.0
2 wait t0 s1
3 arrive t1 1
4 open t1 s2 in s1 0.0.0.0.0
5 spawn t1 t2 in s2 1 2 0.0.0.0.0.0
6 wait t1 s2
7 arrive t2 2
8 open t2 s3 in s2 0.0.0.0.0.0.0
9 spawn t2 t3 in s3 2 3 0.0.0.0.0.0.0.0
10 wait t2 s3
11 arrive t3 3
12 death 2
13 print t3 1 0.0.0.0.0.0.0.0.0
14 end t3
15 release t1 s2 lost 2
16 end t1 thrown dead:2
17 release t0 s1 thrown dead:2
18 print t0 2 1
19 end t0
20 release host s0
journal 0
journal 1
journal 2
0 12 close
journal 3
done
";

pub(crate) const TWO_LOSSES: &[u8] = b"rx10 trace 2
places 4 heap 256
kills 3@12 2@13
joins
history
0 open t0 s1 in s0 0.0.0 | 0
1 spawn t0 t1 in s1 0 1 0.0.0.0
2 wait t0 s1
3 arrive t1 1
4 open t1 s2 in s1 0.0.0.0.0
5 spawn t1 t2 in s2 1 2 0.0.0.0.0.0
6 wait t1 s2
7 arrive t2 2
8 open t2 s3 in s2 0.0.0.0.0.0.0
9 spawn t2 t3 in s3 2 3 0.0.0.0.0.0.0.0
10 wait t2 s3
11 arrive t3 3
12 death 3
13 death 2
14 release t1 s2 lost 2 3
15 end t1 thrown dead:2 dead:3
16 release t0 s1 thrown dead:2 dead:3
17 print t0 2 1
18 end t0
19 release host s0
journal 0
journal 1
journal 2
0 13 close
journal 3
0 12 close
done
";

pub(crate) const AT_WAITS: &[u8] = b"rx10 trace 2
places 3 heap 256
kills 1@6
joins
history
0 at t0 s1 in s0 t1 0 1 0.0.0 | 0
1 arrive t1 1
2 open t1 s2 in s1 0.0.0.0
3 spawn t1 t2 in s2 1 2 0.0.0.0.0
4 wait t1 s2
5 arrive t2 2
6 death 1
7 print t2 1 0.0.0.0.0.0
8 end t2
9 release t0 s1 lost 1
10 print t0 9 0.1.0
11 print t0 2 1
12 end t0
13 release host s0
journal 0
journal 1
0 6 close
journal 2
done
";

pub(crate) const SOURCE_DIES: &[u8] = b"rx10 trace 2
places 3 heap 256
kills 1@6
joins
history
0 open t0 s1 in s0 0.0.0 | 0
1 spawn t0 t1 in s1 0 1 0.0.0.0
2 wait t0 s1
3 arrive t1 1
4 spawn t1 t2 in s1 1 2 0.0.0.0.0
5 end t1
6 death 1
7 release t0 s1 lost 1
8 print t0 9 0.1.0
9 end t0
10 release host s0
journal 0
journal 1
0 6 close
journal 2
done
";

pub(crate) const AT_AND_ASYNC: &[u8] = b"rx10 trace 2
places 2 heap 256
kills
joins
history
0 open t0 s1 in s0 0
1 at t0 s2 in s1 t1 0 1 0.0
2 arrive t1 1
3 spawn t1 t2 in s1 1 1 0.0.0
4 end t1
5 release t0 s2
6 print t0 6 0.1
7 wait t0 s1
8 print t2 5 0.0.0.0
9 end t2
10 release t0 s1
11 end t0
12 release host s0
journal 0
journal 1
done
";

pub(crate) const STALE: &[u8] = b"rx10 trace 2
places 2 heap 256
kills
joins
history
0 end t0 thrown stale | 0 1 2 3
1 release host s0 thrown stale
journal 0
0 t0 0 make 3 at 0 1 0
1 t0 0 forget 0 1 ok 1
2 t0 0 make 3 at 0 2 2
3 t0 0 get 0 1 0 stale 3
journal 1
done
";

pub(crate) const FULL_HEAP: &[u8] = b"rx10 trace 2
places 2 heap 8
kills
joins
history
0 print t0 1 3.1.0 | 0 1 2 3 3.0.0
1 end t0 | 4
2 release host s0
journal 0
0 t0 0 make 4 at 0 1 0
1 t0 0 make 4 at 4 2 1
2 t0 0 forget 0 1 ok 2
3 t0 0 make 5 full 3.0.0
4 t0 1 make 4 at 0 3 4
journal 1
done
";

pub(crate) const WRONG_PLACE: &[u8] = b"rx10 trace 2
places 2 heap 256
kills
joins
history
0 at t0 s1 in s0 t1 0 1 1.0.0 | 0 1
1 arrive t1 1
2 end t1 thrown wrongplace | 1.0.0.0
3 release t0 s1 thrown wrongplace
4 print t0 5 1.1.0
5 end t0
6 release host s0
journal 0
0 t0 0 make 1 at 0 1 0
journal 1
done
";

pub(crate) const FAULTS_IN_ORDER: &[u8] = b"rx10 trace 2
places 2 heap 256
kills
joins
history
0 open t0 s1 in s0 0.0.0 | 0
1 spawn t0 t1 in s1 0 0 0.0.0.0
2 spawn t0 t2 in s1 0 0 0.0.0.1
3 wait t0 s1 thrown code:3 | 0.0.0.2
4 end t1 thrown code:1 | 0.0.0.0.0
5 end t2 thrown code:2 | 0.0.0.1.0
6 release t0 s1 thrown code:3 code:1 code:2
7 print t0 4 0.1.0
8 end t0
9 release host s0
journal 0
journal 1
done
";

pub(crate) const OVERFLOW: &[u8] = b"rx10 trace 2
places 2 heap 256
kills
joins
history
0 end t0 thrown overflow | 0
1 release host s0 thrown overflow
journal 0
journal 1
done
";

pub(crate) const BETWEEN_CALLS: &[u8] = b"rx10 trace 2
places 2 heap 256
kills 1@3
joins
history
0 at t0 s1 in s0 t1 0 1 0
1 arrive t1 1
2 print t1 5 0.1 | 0.0
3 death 1
4 release t0 s1 lost 1
5 end t0 thrown dead:1
6 release host s0 thrown dead:1
journal 0
journal 1
0 t1 2 make 1 at 0 1 0.0
1 3 close
done
";

pub(crate) const NO_PLACE: &[u8] = b"rx10 trace 2
places 2 heap 256
kills
joins
history
0 end t0 thrown noplace | 0
1 release host s0 thrown noplace
journal 0
journal 1
done
";

pub(crate) const EMPTY: &[u8] = b"rx10 trace 2
places 2 heap 256
kills
joins
history
0 end t0
1 release host s0
journal 0
journal 1
done
";

pub(crate) const STARTED: &[u8] = b"rx10 trace 2
places 2 heap 256
kills
joins
history
0 spawn t0 t1 in s0 0 0 0
1 print t0 2 1
2 end t0
3 print t1 1 0.0
4 end t1
5 release host s0
journal 0
journal 1
done
";

pub(crate) const CALL_THROWS: &[u8] = b"rx10 trace 2
places 2 heap 256
kills
joins
history
0 at t0 s1 in s0 t1 0 0 0
1 end t1 thrown code:4 | 0.0
2 release t0 s1 thrown code:4
3 end t0 thrown code:4
4 release host s0 thrown code:4
journal 0
journal 1
done
";

pub(crate) const PICKED: &[u8] = b"rx10 trace 2
places 2 heap 256
kills
joins
history
0 open t0 s1 in s0 0
1 spawn t0 t1 in s1 0 0 0.0
2 spawn t0 t2 in s1 0 0 0.1
3 wait t0 s1
4 print t2 2 0.1.0
5 print t1 1 0.0.0
6 end t1
7 end t2
8 release t0 s1
9 end t0
10 release host s0
journal 0
journal 1
done
";

pub(crate) const MASKED: &[u8] = b"rx10 trace 2
places 3 heap 256
kills 1@8
joins
history
0 open t0 s1 in s0 0.0.0 | 0
1 spawn t0 t1 in s1 0 1 0.0.0.0
2 wait t0 s1
3 arrive t1 1
4 open t1 s2 in s1 0.0.0.0.0
5 spawn t1 t2 in s2 1 2 0.0.0.0.0.0
6 wait t1 s2
7 arrive t2 2
8 death 1
9 end t2 thrown code:5 | 0.0.0.0.0.0.0
10 release t0 s1 lost 1 masked 1
11 print t0 9 0.1.0
12 end t0
13 release host s0
journal 0
journal 1
0 8 close
journal 2
done
";

pub(crate) const HELD_THEN_MASKED: &[u8] = b"rx10 trace 2
places 3 heap 256
kills 1@9
joins
history
0 open t0 s1 in s0 0.0.0 | 0
1 spawn t0 t1 in s1 0 1 0.0.0.0
2 wait t0 s1
3 arrive t1 1
4 open t1 s2 in s1 0.0.0.0.0
5 spawn t1 t2 in s2 1 2 0.0.0.0.0.0
6 wait t1 s2
7 arrive t2 2
8 end t2 thrown code:5 | 0.0.0.0.0.0.0
9 death 1
10 release t0 s1 lost 1 masked 1
11 print t0 9 0.1.0
12 end t0
13 release host s0
journal 0
journal 1
0 9 close
journal 2
done
";

pub(crate) const JOINED: &[u8] = b"rx10 trace 2
places 1 heap 256
kills
joins 1
history
0 print t0 0 0
1 join 1
2 census t0 2 1
3 spawn t0 t1 in s0 0 1 2
4 end t0
5 arrive t1 1
6 print t1 1 2.0
7 end t1
8 release host s0
journal 0
journal 1
done
";

pub(crate) const NEVER_JOINED: &[u8] = b"rx10 trace 2
places 1 heap 256
kills
joins 50
history
0 print t0 0 0
1 census t0 1 1
2 spawn t0 t1 in s0 0 0 2
3 end t0
4 print t1 0 2.0
5 end t1
6 release host s0
journal 0
journal 1
done
";

pub(crate) const NOT_KNOWN: &[u8] = b"rx10 trace 2
places 1 heap 256
kills
joins 0
history
0 join 1
1 end t0 thrown noplace | 0
2 release host s0 thrown noplace
journal 0
journal 1
done
";

pub(crate) const BRIEF: &[u8] = b"rx10 trace 2
places 2 heap 256
kills 2@0
joins 0
history
0 join 2
1 death 2
2 end t0
3 release host s0
journal 0
journal 1
journal 2
0 1 close
done
";

pub(crate) const JOINED_AND_DEAD: &[u8] = b"rx10 trace 2
places 2 heap 256
kills 2@5
joins 5
history
0 open t0 s1 in s0 0
1 spawn t0 t1 in s1 0 1 0.0
2 wait t0 s1
3 arrive t1 1
4 print t1 7 0.0.0
5 join 2
6 death 2
7 end t1
8 release t0 s1
9 print t0 8 1
10 end t0
11 release host s0
journal 0
journal 1
journal 2
0 6 close
done
";

pub(crate) const REALISTIC: &[u8] = b"new parts = 8;
set p = 0;
try {
  finish {
    repeat 8 {
      at p async {
        new rail = 4;
        set i = 0;
        repeat 4 { put rail[i] = ((here * 10) + i); set i = (i + 1); }
        set i = 0;
        set sum = 0;
        repeat 4 { get w = rail[i]; set sum = (sum + w); set i = (i + 1); }
        forget rail;
        at 0 { put parts[p] = sum; }
      }
      set p = (p + 1);
    }
  }
} catch dead { print 999; }
set p = 0;
repeat 8 {
  get s = parts[p];
  if (s == 0) { } else { print s; }
  set p = (p + 1);
}
";
