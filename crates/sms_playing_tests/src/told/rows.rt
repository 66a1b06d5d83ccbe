//! Scripts that are told as objects in JSON, and that are checked.

use sms_trial::Fed;

pub static OBJECTS: [Fed; 7] = [
    Fed {
        words: &["sms", "play", "--json"],
        input: "phone a +1001\nphone b +1002\ntype a +1002 hi\ncarry 1\npush b\ncarry 4\n",
        status: 0,
        output: "{\"event\":1,\"word\":\"typed\",\"text\":1,\"packets\":[{\"number\":1,\"from\":\"a\",\"to\":\"centre\",\"octets\":\"090113000000039101000B010004910120000002E834\"}]}\n{\"event\":2,\"word\":\"held\",\"packets\":[{\"number\":2,\"from\":\"centre\",\"to\":\"a\",\"octets\":\"8904\"},{\"number\":3,\"from\":\"centre\",\"to\":\"a\",\"octets\":\"89010D03004109010000101000000000\"}]}\n{\"event\":3,\"word\":\"pushed\",\"packets\":[{\"number\":4,\"from\":\"centre\",\"to\":\"b\",\"octets\":\"0901190100039101000011040491011000000010100000000002E834\"}]}\n{\"event\":4,\"word\":\"finished\",\"packets\":[{\"number\":5,\"from\":\"b\",\"to\":\"centre\",\"octets\":\"8904\"},{\"number\":6,\"from\":\"b\",\"to\":\"centre\",\"octets\":\"890106020041020000\"}]}\n{\"phone\":\"a\",\"sent\":[{\"number\":1,\"status\":\"waiting\"}],\"store\":[]}\n{\"phone\":\"b\",\"sent\":[],\"store\":[{\"origin\":{\"text\":\"+1001\",\"type\":1,\"plan\":1},\"text\":\"hi\"}]}\n",
    },
    Fed {
        words: &["sms", "play", "--json"],
        input: "brief\nphone a +1001\nphone b +1002\ntype a +1002 hi\ncarry 1\ntimeout a\ncarry 4\ncarry 6\ncarry 9\nclock 3\n",
        status: 1,
        output: "{\"event\":1,\"word\":\"typed\",\"text\":1,\"packets\":[{\"number\":1,\"from\":\"a\",\"to\":\"centre\",\"length\":22}]}\n{\"event\":2,\"word\":\"held\",\"packets\":[{\"number\":2,\"from\":\"centre\",\"to\":\"a\",\"length\":2},{\"number\":3,\"from\":\"centre\",\"to\":\"a\",\"length\":16}]}\n{\"event\":3,\"word\":\"repeated\",\"text\":1,\"packets\":[{\"number\":4,\"from\":\"a\",\"to\":\"centre\",\"length\":22}]}\n{\"event\":4,\"word\":\"refused\",\"cause\":21,\"failure\":197,\"packets\":[{\"number\":5,\"from\":\"centre\",\"to\":\"a\",\"length\":2},{\"number\":6,\"from\":\"centre\",\"to\":\"a\",\"length\":19}]}\n{\"event\":5,\"word\":\"accepted\",\"text\":1,\"packets\":[{\"number\":7,\"from\":\"a\",\"to\":\"centre\",\"length\":2}]}\n{\"event\":6,\"word\":\"fault no such packet\",\"packets\":[]}\n{\"fault\":{\"line\":10,\"reason\":\"setting after event\"}}\n",
    },
    Fed {
        words: &["sms", "play", "--json"],
        input: "phone a +1001\r\ntick 5",
        status: 0,
        output: "{\"event\":1,\"word\":\"ticked\",\"packets\":[]}\n{\"phone\":\"a\",\"sent\":[],\"store\":[]}\n",
    },
    Fed {
        words: &["sms", "play", "--json"],
        input: "",
        status: 0,
        output: "",
    },
    Fed {
        words: &["sms", "play", "--json"],
        input: "push a\n",
        status: 1,
        output: "{\"fault\":{\"line\":1,\"reason\":\"unknown phone\"}}\n",
    },
    Fed {
        words: &["sms", "play", "--json"],
        input: "phone a +1001\ncarry 1\n",
        status: 0,
        output: "{\"event\":1,\"word\":\"fault no such packet\",\"packets\":[]}\n{\"phone\":\"a\",\"sent\":[],\"store\":[]}\n",
    },
    Fed {
        words: &["sms", "play", "--json", "--check"],
        input: "phone a +1001\ncarry 1\n",
        status: 1,
        output: "{\"event\":1,\"word\":\"fault no such packet\",\"packets\":[]}\n{\"phone\":\"a\",\"sent\":[],\"store\":[]}\n",
    },
];

pub static CHECKED: [Fed; 6] = [
    Fed {
        words: &["sms", "play", "--check"],
        input: "phone a +1001\ncarry 1\n",
        status: 1,
        output: "1 fault no such packet\nstore a 0\n",
    },
    Fed {
        words: &["sms", "play"],
        input: "phone a +1001\ncarry 1\n",
        status: 0,
        output: "1 fault no such packet\nstore a 0\n",
    },
    Fed {
        words: &["sms", "play", "--check"],
        input: "phone a +1001\ntimeout a\n",
        status: 0,
        output: "1 idle\nstore a 0\n",
    },
    Fed {
        words: &["sms", "play", "--check"],
        input: "phone a +1001\ninject up a 00\n",
        status: 0,
        output: "1 drop not cp\nstore a 0\n",
    },
    Fed {
        words: &["sms", "play", "--check"],
        input: "phone a +1001\ntick 3155760000\n",
        status: 1,
        output: "1 fault clock end\nstore a 0\n",
    },
    Fed {
        words: &["sms", "play", "--check"],
        input: "phone b 1\nphone c 2\ntype b 2 fault no such packet\ncarry 1\npush c\ncarry 4\n",
        status: 0,
        output: "1 typed 1\n#1 b>centre 090122000000039101001A01000181F2000014E6709D4D07B9DFA0797D8C06C1C3E375990E\n2 held\n#2 centre>b 8904\n#3 centre>b 89010D03004109010000101000000000\n3 pushed\n#4 centre>c 0901280100039101000020040181F100000010100000000014E6709D4D07B9DFA0797D8C06C1C3E375990E\n4 finished\n#5 c>centre 8904\n#6 c>centre 890106020041020000\nsent b 1 waiting\nstore b 0\nstore c 1\n1 fault no such packet\n",
    },
];
